// The hour that a line begins with.
ghost use Rattle.std.specs.Prelude.{◌≡◌};
ghost use Rattle.hourly_run.specs.Entries.{hour_of};

/// So many digits may an hour have.
const HOUR_DIGITS: usize = 20;

/// The number that 1 to 20 decimal digits tell, and nothing else, where 64 bits hold it. The library's own reading of a
/// number takes a plus in front.
pub(crate) fn hour_of(digits: &[u8]) -> Option<u64>
    ensures { result ≡ hour_of digits.now }
{
    if digits.is_empty() {
        return None;
    }
    if HOUR_DIGITS < digits.len() {
        return None;
    }
    let mut hour: u64 = 0;
    for &digit in digits {
        if !digit.is_ascii_digit() {
            return None;
        }
        hour = hour.checked_mul(10)?.checked_add(u64::from(digit - b'0'))?;
    }
    Some(hour)
}
