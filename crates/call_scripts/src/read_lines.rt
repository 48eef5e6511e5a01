// What is read, as a line of text.
ghost use Rattle.std.specs.Prelude.{◌≡◌, OnOk};
ghost use Rattle.std.specs.Io.KnownBytes.{Appends};
ghost use Rattle.call_scripts.specs.ReadLines.{pieces_text, log_fields, log_text, page_counter_text, row_text, queued_text, reading_text};

use crate::frame_text::{write_field, write_frame, write_status, write_task};
use crate::readings::Reading;
use events::Format;
use pages::{CounterValue, ErrorLog};
use refusals::Refusal;
use std::alloc::Global;
use std::io;
use std::io::Write;

// Type and length of each frame.
fn write_pieces<W: Write>(alloc: Global, out: &mut W, bytes: &[u8]) -> io::Result<()>
    ensures { OnOk result (Appends (W.contents out.old) (W.contents out.new) (pieces_text bytes.now)) }
{
    let format = Format {
        alloc,
        traced: false,
    };
    let mut fields = Vec::new(alloc);
    format.push_fields(&mut fields, bytes)?;
    match fields.split_first() {
        Some((_blank, pieces)) => out.write_all(pieces)?,
        None => out.write_all(b"none")?,
    }
    out.write_all(b"\n")
}

#[tactic(auto, unfolding(crate::specs::ReadLines::log_fields))]
fn write_log_fields<W: Write>(out: &mut W, log: ErrorLog) -> io::Result<()>
    ensures { OnOk result (Appends (W.contents out.old) (W.contents out.new) (log_fields log)) }
{
    write!(out, "nq={:x}", u8::from(log.nq))?;
    write_field(out, "tag", log.tag.into())?;
    write_status(out, log.status, log.error)?;
    write_task(out, log.task)
}

fn write_log<W: Write>(out: &mut W, answer: Result<ErrorLog, Refusal>) -> io::Result<()>
    ensures { OnOk result (Appends (W.contents out.old) (W.contents out.new) (log_text answer)) }
{
    match answer {
        Ok(log) => {
            write_log_fields(out, log)?;
            out.write_all(b"\n")
        }
        Err(refusal) => writeln!(out, "refused {refusal}"),
    }
}

// A counter of page 11h. Behind a value that is the largest of its own width stands `top`: there may have been more.
fn write_page_counter<W: Write>(
    out: &mut W,
    answer: Result<Option<CounterValue>, Refusal>,
) -> io::Result<()>
    ensures { OnOk result (Appends (W.contents out.old) (W.contents out.new) (page_counter_text answer)) }
{
    match answer {
        Ok(Some(counter)) if counter.is_top() => writeln!(out, "{} top", counter.value),
        Ok(Some(counter)) => writeln!(out, "{}", counter.value),
        Ok(None) => writeln!(out, "absent"),
        Err(refusal) => writeln!(out, "refused {refusal}"),
    }
}

fn write_row<W: Write>(out: &mut W, row: Option<usize>) -> io::Result<()>
    ensures { OnOk result (Appends (W.contents out.old) (W.contents out.new) (row_text row)) }
{
    match row {
        Some(row) => writeln!(out, "{row}"),
        None => writeln!(out, "none"),
    }
}

fn write_queued<W: Write>(out: &mut W, features: u8, high: u8, count: u16) -> io::Result<()>
    ensures { OnOk result (Appends (W.contents out.old) (W.contents out.new) (queued_text features high count)) }
{
    let tag = frames::tag_of(count);
    let sectors = frames::sectors_of(features, high);
    writeln!(out, "tag={tag:x} sectors={sectors:x}")
}

/// What is read comes to this.
pub(crate) fn write_reading<W: Write>(
    alloc: Global,
    out: &mut W,
    reading: &Reading,
) -> io::Result<()>
    ensures { OnOk result (Appends (W.contents out.old) (W.contents out.new) (reading_text reading.now)) }
{
    match reading {
        Reading::Frame(bytes) => write_frame(out, frames::read_frame(bytes.as_slice())),
        Reading::Pieces(bytes) => write_pieces(alloc, out, bytes.as_slice()),
        Reading::ErrorPage(page) => write_log(out, pages::read_log(page.as_slice())),
        Reading::Counter { number, page } => {
            write_page_counter(out, pages::read_counter(page.as_slice(), *number))
        }
        Reading::Row(number) => write_row(out, counters::row_of(*number)),
        Reading::Queued {
            features,
            high,
            count,
        } => write_queued(out, *features, *high, *count),
    }
}
