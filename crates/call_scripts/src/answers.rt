// What the device answers to a call, as a line of text.
ghost use Rattle.std.specs.Prelude.{◌≡◌, OnOk};
ghost use Rattle.std.specs.Io.KnownBytes.{Appends};
ghost use Rattle.call_scripts.specs.Answers.{touched, tail_of, outcome_text, counter_text, count_text, part_text};

use crate::UNTOUCHED;
use device::Outcome;
use events::Format;
use refusals::Refusal;
use std::alloc::Global;
use std::io;
use std::io::Write;

// Whether a byte behind the replies has changed.
fn is_touched(behind: &[u8]) -> bool
    ensures { result ≡ touched behind.now }
{
    behind.iter().any(|byte| *byte != UNTOUCHED)
}

/// Whether a byte behind what was written has changed.
pub(crate) fn write_tail<W: Write>(out: &mut W, behind: &[u8]) -> io::Result<()>
    ensures { OnOk result (Appends (W.contents out.old) (W.contents out.new) (tail_of behind.now)) }
{
    if is_touched(behind) {
        return out.write_all(b" tail");
    }
    Ok(())
}

/// The refusal, the length of the replies, each of them, and whether a byte behind them has changed.
pub(crate) fn write_outcome<W: Write>(
    alloc: Global,
    out: &mut W,
    outcome: &Outcome,
    reply: &[u8],
) -> io::Result<()>
    ensures { OnOk result (Appends (W.contents out.old) (W.contents out.new) (outcome_text outcome.now.refusal outcome.now.len reply.now)) }
{
    let (replies, behind) = reply.split_at(outcome.len.min(reply.len()));
    let refusal = Refusal::number_told(outcome.refusal);
    write!(out, "{refusal} {}", outcome.len)?;
    let format = Format {
        alloc,
        traced: true,
    };
    let mut fields = Vec::new(alloc);
    format.push_fields(&mut fields, replies)?;
    out.write_all(&fields)?;
    write_tail(out, behind)?;
    out.write_all(b"\n")
}

/// A counter's value, or that it is not kept, or the refusal.
pub(crate) fn write_counter<W: Write>(
    out: &mut W,
    answer: Result<Option<u64>, Refusal>,
) -> io::Result<()>
    ensures { OnOk result (Appends (W.contents out.old) (W.contents out.new) (counter_text answer)) }
{
    match answer {
        Ok(Some(value)) => writeln!(out, "{value}"),
        Ok(None) => writeln!(out, "absent"),
        Err(refusal) => writeln!(out, "refused {refusal}"),
    }
}

/// How many commands are outstanding, or the refusal.
pub(crate) fn write_count<W: Write>(out: &mut W, answer: Result<u32, Refusal>) -> io::Result<()>
    ensures { OnOk result (Appends (W.contents out.old) (W.contents out.new) (count_text answer)) }
{
    match answer {
        Ok(count) => writeln!(out, "{count}"),
        Err(refusal) => writeln!(out, "refused {refusal}"),
    }
}

/// So many bytes of the medium, in hex; `what?` where it has not so many there.
pub(crate) fn write_part<W: Write>(
    alloc: Global,
    out: &mut W,
    medium: &[u8],
    at: u32,
    size: u32,
) -> io::Result<()>
    ensures { OnOk result (Appends (W.contents out.old) (W.contents out.new) (part_text medium.now at size)) }
{
    let at = at as usize;
    let Some(part) = medium.get(at..at + size as usize) else {
        return out.write_all(b"what?\n");
    };
    out.write_all(hex::encode(alloc, part)?.as_bytes())?;
    out.write_all(b"\n")
}
