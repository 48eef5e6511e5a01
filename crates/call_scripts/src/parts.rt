// Parts of a text.
ghost use Rattle.std.specs.Prelude.{◌≡◌, ◌<◌, length};
ghost use Rattle.call_scripts.specs.Parts.{before, behind};

/// What stands before the first such byte, and what behind it: all and nothing, where there is none.
#[tactic(auto, unfolding(crate::specs::Parts::before, crate::specs::Parts::behind), using(crate::proofs::PartLaws::before_next, crate::proofs::PartLaws::behind_next))]
pub(crate) fn parts_at(text: &[u8], byte: u8) -> (&[u8], &[u8])
    ensures before { result.0.now ≡ before byte text.now }
    ensures behind { result.1.now ≡ behind byte text.now }
    ensures shorter { 0 < length text.now → length result.1.now < length text.now }
{
    for (at, found) in text.iter().enumerate() {
        if *found == byte {
            return (&text[..at], &text[at + 1..]);
        }
    }
    (text, &[])
}
