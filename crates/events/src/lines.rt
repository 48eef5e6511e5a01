// The pieces of a line, of a fixed size each; and the replies behind lines that are gathered on the heap, as scripts do.
ghost use Rattle.std.specs.Prelude.{◌≡◌, ◌++◌, ◌<◌, ◌≤◌, ◌∷◌, [], OnOk};
ghost use Rattle.hex.specs.Hex.{encode_upper};
ghost use Rattle.frames.specs.Cut.{cut};
ghost use Rattle.events.specs.Lines.{upper8, told_of, trace_of, typed, label_of, field_of, fields_of};

use frames::byte_of;
use std::alloc::{AllocError, Global};

const UPPER: [u8; 16] = *b"0123456789ABCDEF";

// A byte in two upper-case hex digits. Neither they nor the short decimal numbers below go by `write!` or `itoa`: a line's
// pieces have a fixed size so, and are stored without a call.
#[tactic(auto, unfolding(hex::specs::Hex::encode_with))]
pub(crate) fn upper(byte: u8) -> [u8; 2]
    ensures { result ≡ encode_upper (byte ∷ []) }
{
    [UPPER[usize::from(byte / 16)], UPPER[usize::from(byte % 16)]]
}

#[tactic(auto, unfolding(hex::specs::Hex::encode_with))]
fn upper8(number: u32) -> [u8; 8]
    ensures { result ≡ upper8 number }
{
    let [a, b, c, d] = number.to_be_bytes();
    let [a1, a0] = upper(a);
    let [b1, b0] = upper(b);
    let [c1, c0] = upper(c);
    let [d1, d0] = upper(d);
    [a1, a0, b1, b0, c1, c0, d1, d0]
}

// Behind a line's number: the refusal's number, of one digit or two, and the tags outstanding.
#[tactic(auto, using(crate::proofs::Digits::digits_one), unfolding(hex::specs::Hex::encode_with))]
pub(crate) fn told_in_one(told: u8, outstanding: u32) -> [u8; 11]
    requires { told < 10 }
    ensures { result ≡ told_of told outstanding }
{
    let [a, b, c, d, e, f, g, h] = upper8(outstanding);
    [b' ', b'0' + told, b' ', a, b, c, d, e, f, g, h]
}

#[tactic(auto, using(crate::proofs::Digits::digits_two), unfolding(hex::specs::Hex::encode_with))]
pub(crate) fn told_in_two(told: u8, outstanding: u32) -> [u8; 12]
    requires { (10 ≤ told) × (told < 100) }
    ensures { result ≡ told_of told outstanding }
{
    let [a, b, c, d, e, f, g, h] = upper8(outstanding);
    [
        b' ',
        b'0' + told / 10,
        b'0' + told % 10,
        b' ',
        a,
        b,
        c,
        d,
        e,
        f,
        g,
        h,
    ]
}

// A reply's type, and its length of one digit or two.
#[tactic(auto, using(crate::proofs::Digits::digits_one), unfolding(hex::specs::Hex::encode_with))]
pub(crate) fn label_in_one(kind: u8, length: u8) -> [u8; 5]
    requires { length < 10 }
    ensures { result ≡ typed kind length }
{
    let [high, low] = upper(kind);
    [b' ', high, low, b':', b'0' + length]
}

#[tactic(auto, using(crate::proofs::Digits::digits_two), unfolding(hex::specs::Hex::encode_with))]
pub(crate) fn label_in_two(kind: u8, length: u8) -> [u8; 6]
    requires { (10 ≤ length) × (length < 100) }
    ensures { result ≡ typed kind length }
{
    let [high, low] = upper(kind);
    [
        b' ',
        high,
        low,
        b':',
        b'0' + length / 10,
        b'0' + length % 10,
    ]
}

fn push_label(lines: &mut Vec<u8>, reply: &[u8]) -> Result<(), AllocError>
    ensures { OnOk result (lines.new.items ≡ lines.old.items ++ label_of reply.now) }
{
    let kind = byte_of(reply, 0);
    let length = reply.len();
    if length < 10 {
        return lines.extend_from_slice(&label_in_one(kind, length as u8));
    }
    if length < 100 {
        return lines.extend_from_slice(&label_in_two(kind, length as u8));
    }
    let [high, low] = upper(kind);
    lines.extend_from_slice(&[b' ', high, low, b':'])?;
    lines.extend_from_slice(itoa::Buffer::new().format(length).as_bytes())
}

/// How a run writes its lines.
#[derive(Clone, Copy, Debug)]
pub struct Format {
    /// where the lines are gathered, and the digits of a reply
    pub alloc: Global,
    /// whether the bytes of each reply stand in its line
    pub traced: bool,
}

impl Format {
    #[inline(never)]
    fn push_trace(self, lines: &mut Vec<u8>, reply: &[u8]) -> Result<(), AllocError>
        ensures { OnOk result (lines.new.items ≡ lines.old.items ++ trace_of reply.now) }
    {
        lines.extend_from_slice(b"=")?;
        lines.extend_from_slice(hex::encode(self.alloc, reply)?.as_bytes())
    }

    fn push_field(self, lines: &mut Vec<u8>, reply: &[u8]) -> Result<(), AllocError>
        ensures { OnOk result (lines.new.items ≡ lines.old.items ++ field_of self.traced reply.now) }
    {
        push_label(lines, reply)?;
        if self.traced {
            return self.push_trace(lines, reply);
        }
        Ok(())
    }

    /// The replies of a call, behind the lines that are gathered, each behind a blank: type:length and, where the run is traced, its bytes.
    ///
    /// # Errors
    /// No memory for them.
    pub fn push_fields(self, lines: &mut Vec<u8>, replies: &[u8]) -> Result<(), AllocError>
        ensures { OnOk result (lines.new.items ≡ lines.old.items ++ fields_of self.traced (cut replies.now)) }
    {
        for reply in frames::frames_of(replies) {
            self.push_field(lines, reply)?;
        }
        Ok(())
    }
}
