// What the lines of a page's text are made of. They are laid one behind the other in a room that no page's text fills: nothing
// fails there, and no memory is asked for.
ghost use Rattle.std.specs.Prelude.{◌≡◌, ◌+◌, ◌<◌, ◌≤◌, ◌++◌, true, length, take, drop, decimal, codes};
ghost use Rattle.std.specs.Fmt.{digit_glyph, digits};
ghost use Rattle.arrayvec.specs.ArrayVec.{array_vec_len};
ghost use Rattle.page_text.specs.Words.{upper, refusal_text};

use arrayvec::ArrayVec;
use refusals::Refusal;

/// No page's text is longer.
pub(crate) const TEXT_MOST: usize = 1024;

/// A page's text, or what is laid of it so far.
pub(crate) type Text = ArrayVec<u8, TEXT_MOST>;

pub(crate) fn push(text: &mut Text, word: &[u8])
    requires { array_vec_len text.old + length word.now ≤ TEXT_MOST }
    ensures bytes { text.new.items ≡ text.old.items ++ word.now }
    ensures len { array_vec_len text.new ≡ array_vec_len text.old + length word.now }
{
    let _fits = text.try_extend_from_slice(word);
}

/// In decimal.
pub(crate) fn push_number(text: &mut Text, number: u64)
    requires { array_vec_len text.old + 20 ≤ TEXT_MOST }
    ensures bytes { text.new.items ≡ text.old.items ++ decimal number }
    ensures len { array_vec_len text.new ≤ array_vec_len text.old + 20 }
{
    push(text, itoa::Buffer::new().format(number).as_bytes());
}

// An upper-case hex digit.
fn hex_digit(n: u64) -> u8
    requires { n < 16 }
    ensures { result ≡ digit_glyph true n }
{
    let digit = n as u8;
    if digit < 10 {
        b'0' + digit
    } else {
        b'A' + (digit - 10)
    }
}

// The hex digits, at the end of sixteen places: where they begin.
fn lay_digits(places: &mut [u8; 16], n: u64) -> usize
    ensures inside { result ≤ 16 }
    ensures digits { drop result places.new ≡ digits 16 true n }
    ensures front { take result places.new ≡ take result places.old }
{
    let mut at = 15;
    let mut rest = n;
    while rest >= 16 {
        places[at] = hex_digit(rest % 16);
        rest /= 16;
        at -= 1;
    }
    places[at] = hex_digit(rest);
    at
}

/// In upper-case hex digits, at least so many, with zeros in front.
pub(crate) fn push_upper(text: &mut Text, width: usize, n: u64)
    requires room { array_vec_len text.old + 16 ≤ TEXT_MOST }
    requires width { width ≤ 16 }
    ensures bytes { text.new.items ≡ text.old.items ++ upper width n }
    ensures len { array_vec_len text.new ≤ array_vec_len text.old + 16 }
{
    let mut places = [b'0'; 16];
    let at = lay_digits(&mut places, n);
    push(text, &places[at.min(16 - width)..]);
}

/// A line with a number in decimal.
pub(crate) fn push_number_line(text: &mut Text, label: &[u8], number: u64)
    requires { array_vec_len text.old + length label.now + 21 ≤ TEXT_MOST }
    ensures bytes { text.new.items ≡ text.old.items ++ (label.now ++ (decimal number ++ codes "\n")) }
    ensures len { array_vec_len text.new ≤ array_vec_len text.old + length label.now + 21 }
{
    push(text, label);
    push_number(text, number);
    push(text, b"\n");
}

/// A line with a number in hex.
pub(crate) fn push_upper_line(text: &mut Text, label: &[u8], width: usize, n: u64)
    requires room { array_vec_len text.old + length label.now + 18 ≤ TEXT_MOST }
    requires width { width ≤ 16 }
    ensures bytes { text.new.items ≡ text.old.items ++ (label.now ++ (upper width n ++ codes "h\n")) }
    ensures len { array_vec_len text.new ≤ array_vec_len text.old + length label.now + 18 }
{
    push(text, label);
    push_upper(text, width, n);
    push(text, b"h\n");
}

/// The line of a page that was refused.
pub(crate) fn push_refusal(text: &mut Text, refusal: Refusal)
    requires { array_vec_len text.old + 29 ≤ TEXT_MOST }
    ensures { text.new.items ≡ text.old.items ++ refusal_text refusal }
{
    push_number_line(text, b"refused ", u64::from(refusal.number()));
}
