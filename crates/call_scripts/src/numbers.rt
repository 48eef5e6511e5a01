// Numbers as a line tells them: in hex, with any number of zeros in front.
ghost use Rattle.std.specs.Prelude.{◌≡◌};
ghost use Rattle.call_scripts.specs.Numbers.{digit_of, number_within};

fn digit(byte: u8) -> Option<u32>
    ensures { result ≡ digit_of byte }
{
    char::from(byte).to_digit(16)
}

/// The number that a word tells in hex; `None` for more than `most`, for no digits, and for what is no digit. It may have 64 bits.
#[tactic(auto, unfolding(crate::specs::Numbers::number_from), using(crate::proofs::NumberLaws::above_stays, crate::proofs::NumberLaws::digits_next))]
pub(crate) fn wide_within(word: &[u8], most: u64) -> Option<u64>
    ensures { result ≡ number_within most word.now }
{
    if word.is_empty() {
        return None;
    }
    let mut number: u128 = 0;
    for &byte in word {
        number = 16 * number + u128::from(digit(byte)?);
        if number > u128::from(most) {
            return None;
        }
    }
    Some(number as u64)
}

/// The same of 32 bits.
pub(crate) fn number_within(word: &[u8], most: u32) -> Option<u32>
    ensures { result ≡ number_within most word.now }
{
    let number = wide_within(word, u64::from(most))?;
    u32::try_from(number).ok()
}
