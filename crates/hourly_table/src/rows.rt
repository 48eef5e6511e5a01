// The lines of the table.
ghost use Rattle.std.specs.Prelude.{◌≡◌, ◌+◌, ◌<◌, ◌≤◌, ◌++◌, ◌%◌};
ghost use Rattle.arrayvec.specs.ArrayString.{array_string_len};
ghost use Rattle.hourly_table.specs.Rows.{row_text, hex_digit, hex_number, field_text};

use arrayvec::ArrayString;

/// The first line, with how the fields of the rows are called.
pub(crate) const HEADER: [u8; 21] = *b"hour,counter,change\r\n";

/// No row is longer: 20 digits, 3 and 20, two commas, CR and LF.
pub(crate) const ROW_LIMIT: usize = 47;

const HEX_DIGITS: [char; 16] = [
    '0', '1', '2', '3', '4', '5', '6', '7', '8', '9', 'A', 'B', 'C', 'D', 'E', 'F',
];

// The lowest four bits, as a digit.
fn hex_digit(n: u16) -> char
    ensures digit { result ≡ hex_digit (n % 16) }
    ensures ascii { result < 128 }
{
    HEX_DIGITS[usize::from(n % 16)]
}

// The twelve bits of a number, in three digits.
fn push_number(text: &mut ArrayString<ROW_LIMIT>, number: u16)
    requires { array_string_len text.old + 3 ≤ ROW_LIMIT }
    ensures { text.new.bytes ≡ text.old.bytes ++ hex_number number }
{
    text.push(hex_digit(number >> 8));
    text.push(hex_digit(number >> 4));
    text.push(hex_digit(number));
}

// In decimal; nothing at all where there is no change.
fn push_change(text: &mut ArrayString<ROW_LIMIT>, change: Option<u64>)
    requires { array_string_len text.old + 20 ≤ ROW_LIMIT }
    ensures bytes { text.new.bytes ≡ text.old.bytes ++ field_text change }
    ensures room { array_string_len text.new ≤ array_string_len text.old + 20 }
{
    if let Some(change) = change {
        text.push_str(itoa::Buffer::new().format(change));
    }
}

/// Hour, counter and change; the field of no change is empty.
#[tactic(auto, unfolding(crate::specs::Rows::row_text))]
pub(crate) fn row_text(hour: u64, number: u16, change: Option<u64>) -> ArrayString<ROW_LIMIT>
    ensures { result.bytes ≡ row_text hour number change }
{
    let mut text = ArrayString::new();
    text.push_str(itoa::Buffer::new().format(hour));
    text.push(',');
    push_number(&mut text, number);
    text.push(',');
    push_change(&mut text, change);
    text.push_str("\r\n");
    text
}
