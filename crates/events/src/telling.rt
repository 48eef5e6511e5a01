// The line of an event, behind the lines that are gathered.
ghost use Rattle.std.specs.Prelude.{◌≡◌, ◌<◌, ◌∷◌, []};
ghost use Rattle.hex.specs.Hex.{encode_lower};
ghost use Rattle.frames.specs.Cut.{cut};
ghost use Rattle.streams.specs.Gathered.{held_back, gathering, Pushes};
ghost use Rattle.events.specs.Lines.{told_of, trace_of, label_of, field_of, fields_of, line_of};

use crate::lines::{label_in_one, label_in_two, told_in_one, told_in_two, upper};
use frames::byte_of;
use refusals::Refusal;
use std::io::Write;
use streams::{Lines, Watched};

const LOWER: [u8; 16] = *b"0123456789abcdef";

// A byte in two lower-case hex digits.
#[tactic(auto, unfolding(hex::specs::Hex::encode_with))]
fn lower(byte: u8) -> [u8; 2]
    ensures { result ≡ encode_lower (byte ∷ []) }
{
    [LOWER[usize::from(byte / 16)], LOWER[usize::from(byte % 16)]]
}

// Eight bytes in sixteen.
#[inline(always)]
#[tactic(auto, unfolding(hex::specs::Hex::encode_with))]
fn lower8(a: u8, b: u8, c: u8, d: u8, e: u8, f: u8, g: u8, h: u8) -> [u8; 16]
    ensures { result ≡ encode_lower (a ∷ b ∷ c ∷ d ∷ e ∷ f ∷ g ∷ h ∷ []) }
{
    let [a1, a0] = lower(a);
    let [b1, b0] = lower(b);
    let [c1, c0] = lower(c);
    let [d1, d0] = lower(d);
    let [e1, e0] = lower(e);
    let [f1, f0] = lower(f);
    let [g1, g0] = lower(g);
    let [h1, h0] = lower(h);
    [
        a1, a0, b1, b0, c1, c0, d1, d0, e1, e0, f1, f0, g1, g0, h1, h0,
    ]
}

/// What the line of an event tells.
#[derive(Drop)]
pub(crate) struct Line<'a> {
    pub(crate) number: u64,
    pub(crate) refusal: Option<Refusal>,
    pub(crate) outstanding: u32,
    pub(crate) replies: &'a [u8],
}

fn push_told<W: Write>(lines: &mut Lines, out: &mut Watched<W>, told: u8, outstanding: u32)
    requires { told < 100 }
    ensures { Pushes (gathering (W.contents out.old.inner) (held_back lines.old) out.old.failed) (gathering (W.contents out.new.inner) (held_back lines.new) out.new.failed) (told_of told outstanding) }
{
    if told < 10 {
        return lines.push(out, &told_in_one(told, outstanding));
    }
    lines.push(out, &told_in_two(told, outstanding))
}

fn push_label<W: Write>(lines: &mut Lines, out: &mut Watched<W>, reply: &[u8])
    ensures { Pushes (gathering (W.contents out.old.inner) (held_back lines.old) out.old.failed) (gathering (W.contents out.new.inner) (held_back lines.new) out.new.failed) (label_of reply.now) }
{
    let kind = byte_of(reply, 0);
    let length = reply.len();
    if length < 10 {
        return lines.push(out, &label_in_one(kind, length as u8));
    }
    if length < 100 {
        return lines.push(out, &label_in_two(kind, length as u8));
    }
    let [high, low] = upper(kind);
    lines.push(out, &[b' ', high, low, b':']);
    lines.push(out, itoa::Buffer::new().format(length).as_bytes())
}

#[inline(never)]
fn push_trace<W: Write>(lines: &mut Lines, out: &mut Watched<W>, reply: &[u8])
    ensures { Pushes (gathering (W.contents out.old.inner) (held_back lines.old) out.old.failed) (gathering (W.contents out.new.inner) (held_back lines.new) out.new.failed) (trace_of reply.now) }
{
    lines.push(out, b"=");
    let mut rest = reply;
    while rest.len() >= 8 {
        lines.push(
            out,
            &lower8(
                rest[0], rest[1], rest[2], rest[3], rest[4], rest[5], rest[6], rest[7],
            ),
        );
        rest = &rest[8..];
    }
    for &byte in rest {
        lines.push(out, &lower(byte));
    }
}

fn push_field<W: Write>(traced: bool, lines: &mut Lines, out: &mut Watched<W>, reply: &[u8])
    ensures { Pushes (gathering (W.contents out.old.inner) (held_back lines.old) out.old.failed) (gathering (W.contents out.new.inner) (held_back lines.new) out.new.failed) (field_of traced reply.now) }
{
    push_label(lines, out, reply);
    if traced {
        push_trace(lines, out, reply);
    }
}

fn tell_fields<W: Write>(traced: bool, lines: &mut Lines, out: &mut Watched<W>, replies: &[u8])
    ensures { Pushes (gathering (W.contents out.old.inner) (held_back lines.old) out.old.failed) (gathering (W.contents out.new.inner) (held_back lines.new) out.new.failed) (fields_of traced (cut replies.now)) }
{
    for reply in frames::frames_of(replies) {
        push_field(traced, lines, out, reply);
    }
}

/// The line, behind the lines that are gathered.
#[tactic(auto, using(crate::proofs::Digits::told_short))]
pub(crate) fn tell<W: Write>(traced: bool, lines: &mut Lines, out: &mut Watched<W>, line: &Line)
    ensures { Pushes (gathering (W.contents out.old.inner) (held_back lines.old) out.old.failed) (gathering (W.contents out.new.inner) (held_back lines.new) out.new.failed) (line_of traced line.now.number line.now.refusal line.now.outstanding line.now.replies.now) }
{
    lines.push(out, itoa::Buffer::new().format(line.number).as_bytes());
    push_told(
        lines,
        out,
        Refusal::number_told(line.refusal),
        line.outstanding,
    );
    tell_fields(traced, lines, out, line.replies);
    lines.push(out, b"\n")
}
