// The page that a text tells in hex.
ghost use Rattle.std.specs.Prelude.{◌≡◌, length, None, Some, if◌then◌else◌, ◌==◌};
ghost use Rattle.page_text.specs.HexText.{digits_each, digits_in, in_units, page_of};

use crate::hex_words::swap_words;
use hex::FromHex;
use pages::PAGE_SIZE;

/// How a page is written in hex.
#[derive(Clone, Copy, Debug, PartialEq, Eq)]
pub enum Notation {
    /// Byte for byte, two digits each.
    Bytes,
    /// In 16-bit words of four digits, whose low byte, the last two digits, goes before the high one in the page.
    Words,
}

impl Notation {
    // How many digits stand together in any case.
    fn digits_each(self) -> usize
        ensures { result ≡ digits_each self }
    {
        match self {
            Notation::Bytes => 2,
            Notation::Words => 4,
        }
    }
}

// White space stands between whole bytes, or whole words, alone.
fn is_in_units(text: &[u8], notation: Notation) -> bool
    ensures { result ≡ in_units notation text.now }
{
    let digits_each = notation.digits_each();
    text.split(u8::is_ascii_whitespace)
        .all(|group| group.len() % digits_each == 0)
}

// What the text has beside white space, where that is as long as a page's digits are.
#[tactic(auto, unfolding(crate::specs::HexText::digits_in), using(crate::proofs::Collecting::digits_in_white, crate::proofs::Collecting::digits_in_more, crate::proofs::Collecting::digits_beyond, std::proofs::lemmas::List::take_more_set))]
fn digits(text: &[u8]) -> Option<[u8; 2 * PAGE_SIZE]>
    ensures { result ≡ if length (digits_in text.now) == 1024 then Some (digits_in text.now) else None }
{
    let mut digits = [0; 2 * PAGE_SIZE];
    let mut count = 0;
    for &c in text {
        if c.is_ascii_whitespace() {
            continue;
        }
        if count == digits.len() {
            return None;
        }
        digits[count] = c;
        count += 1;
    }
    (count == digits.len()).then_some(digits)
}

/// The page that a text tells in hex, or `None` where the text is not just 512 bytes of it. White space may stand between
/// bytes, or between words, and not within one; digits are of either case.
#[tactic(auto, unfolding(crate::specs::HexText::page_of))]
pub fn parse_page(text: &[u8], notation: Notation) -> Option<[u8; PAGE_SIZE]>
    ensures { result ≡ page_of notation text.now }
{
    if !is_in_units(text, notation) {
        return None;
    }
    let page = <[u8; PAGE_SIZE]>::from_hex(digits(text)?).ok()?;
    Some(match notation {
        Notation::Bytes => page,
        Notation::Words => swap_words(page),
    })
}
