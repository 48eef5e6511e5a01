// The numbers of the counters that words ask for.
ghost use Rattle.std.specs.Prelude.{◌≡◌, IfOk, map};
ghost use Rattle.std.specs.Char.{is_ascii_hexdigit};
ghost use Rattle.std.specs.List.{list_all};
ghost use Rattle.hourly_run.specs.Kept.{numbers_told};
ghost use Rattle.hourly_run.specs.Numbers.{number_of, numbers_in};

use std::alloc::{AllocError, Global};

fn is_all_hex(word: &str) -> bool
    ensures { result ≡ list_all is_ascii_hexdigit word.now }
{
    word.as_bytes().iter().all(|byte| byte.is_ascii_hexdigit())
}

// 1 to 4 hex digits, of either case. The library's own reading of a number takes a plus in front, and more digits.
fn number_of(word: &str) -> Option<u16>
    ensures { result ≡ number_of word.now }
{
    if !is_all_hex(word) {
        return None;
    }
    if 4 < word.len() {
        return None;
    }
    u16::from_str_radix(word, 16).ok()
}

/// The number of every word, in their order; or the first word that tells none.
pub(crate) fn numbers_in<'a>(
    alloc: Global,
    words: &[&'a str],
) -> Result<Result<Vec<u16>, &'a str>, AllocError>
    ensures { IfOk result (λ r. numbers_told r ≡ numbers_in (map (λ word. word.now) words.now)) }
{
    let mut numbers = Vec::new(alloc);
    for &word in words {
        match number_of(word) {
            Some(number) => numbers.push(number)?,
            None => return Ok(Err(word)),
        }
    }
    Ok(Ok(numbers))
}
