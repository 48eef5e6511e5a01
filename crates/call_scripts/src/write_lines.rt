// What is written, as a line of text.
ghost use Rattle.std.specs.Prelude.{◌≡◌, IfOk, OnOk};
ghost use Rattle.std.specs.Io.KnownBytes.{Appends};
ghost use Rattle.frames.specs.Emit.{WriteGiven};
ghost use Rattle.frames.specs.Write.{FrameWriteGiven};
ghost use Rattle.call_scripts.specs.WriteLines.{frame_value, writing_fits, writing_bytes, taken_text, written_text, emit_text, writing_text};

use crate::answers::write_tail;
use crate::data_frames::payload;
use crate::writings::{FrameFields, Writing};
use crate::{REPLY_SIZE, UNTOUCHED};
use refusals::Refusal;
use std::alloc::{AllocError, Global};
use std::io;
use std::io::Write;

fn write_payload(
    alloc: Global,
    buffer: &mut [u8],
    size: u16,
    byte: u8,
) -> Result<Result<usize, Refusal>, AllocError>
    ensures { IfOk result (λ answer. FrameWriteGiven (frame_value (FrameFields.Data size byte)) buffer.old answer buffer.new) }
{
    let payload = payload(alloc, size, byte)?;
    Ok(frames::write_data(buffer, &payload))
}

fn write_frame(
    alloc: Global,
    buffer: &mut [u8],
    fields: FrameFields,
) -> Result<Result<usize, Refusal>, AllocError>
    ensures { IfOk result (λ answer. FrameWriteGiven (frame_value fields) buffer.old answer buffer.new) }
{
    match fields {
        FrameFields::Host(frame) => Ok(frames::write_host(buffer, frame)),
        FrameFields::Device(frame) => Ok(frames::write_device(buffer, frame)),
        FrameFields::Bits(frame) => Ok(frames::write_bits(buffer, frame)),
        FrameFields::Setup(frame) => Ok(frames::write_setup(buffer, frame)),
        FrameFields::Activate => Ok(frames::write_activate(buffer)),
        FrameFields::Data { size, byte } => write_payload(alloc, buffer, size, byte),
        FrameFields::Bist => Ok(frames::write_bist(buffer)),
        FrameFields::Pio(frame) => Ok(frames::write_pio(buffer, frame)),
    }
}

#[tactic(auto, unfolding(crate::specs::WriteLines::writing_fits, crate::specs::WriteLines::writing_bytes))]
fn write_to(
    alloc: Global,
    buffer: &mut [u8],
    writing: Writing,
) -> Result<Result<usize, Refusal>, AllocError>
    ensures { IfOk result (λ answer. WriteGiven (writing_fits writing) (writing_bytes writing) buffer.old answer buffer.new) }
{
    match writing {
        Writing::Frame(fields) => write_frame(alloc, buffer, fields),
        Writing::ErrorPage(log) => Ok(pages::write_log(buffer, log)),
        Writing::Counters { mask, values } => Ok(pages::write_counters(buffer, mask, &values)),
    }
}

fn write_taken<W: Write>(alloc: Global, out: &mut W, len: usize, buffer: &[u8]) -> io::Result<()>
    ensures { OnOk result (Appends (W.contents out.old) (W.contents out.new) (taken_text len buffer.now)) }
{
    let (written, behind) = buffer.split_at(len.min(buffer.len()));
    write!(out, "0 {len} ")?;
    out.write_all(hex::encode(alloc, written)?.as_bytes())?;
    write_tail(out, behind)?;
    out.write_all(b"\n")
}

fn write_written<W: Write>(
    alloc: Global,
    out: &mut W,
    answer: Result<usize, Refusal>,
    buffer: &[u8],
) -> io::Result<()>
    ensures { OnOk result (Appends (W.contents out.old) (W.contents out.new) (written_text answer buffer.now)) }
{
    match answer {
        Ok(len) => write_taken(alloc, out, len, buffer),
        Err(refusal) => {
            write!(out, "{refusal} 0")?;
            write_tail(out, buffer)?;
            out.write_all(b"\n")
        }
    }
}

// What comes of a write to a buffer.
#[tactic(auto, using(crate::proofs::WriteLaws::written_is))]
fn write_line<W: Write>(
    alloc: Global,
    out: &mut W,
    buffer: &mut [u8],
    writing: Writing,
) -> io::Result<()>
    ensures { OnOk result (Appends (W.contents out.old) (W.contents out.new) (emit_text (writing_fits writing) (writing_bytes writing) buffer.old)) }
{
    let answer = write_to(alloc, buffer, writing)?;
    write_written(alloc, out, answer, buffer)
}

/// What comes of a write to a buffer of so many bytes.
pub(crate) fn write_writing<W: Write>(
    alloc: Global,
    out: &mut W,
    room: usize,
    writing: Writing,
) -> io::Result<()>
    ensures { OnOk result (Appends (W.contents out.old) (W.contents out.new) (writing_text room writing)) }
{
    let mut whole = [UNTOUCHED; REPLY_SIZE as usize];
    let size = room.min(whole.len());
    write_line(alloc, out, &mut whole[..size], writing)
}
