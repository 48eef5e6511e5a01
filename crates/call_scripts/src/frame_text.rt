// The fields of a frame that was read, as text.
ghost use Rattle.std.specs.Prelude.{◌≡◌, OnOk};
ghost use Rattle.std.specs.Io.KnownBytes.{Appends};
ghost use Rattle.call_scripts.specs.FrameText.{field_text, task_text, status_text, command_text, high_text, count_text, place_text, host_text, device_text, bits_text, flags_text, setup_text, ending_text, pio_text, fields_text, frame_text};

use frames::{DevReg, DmaSetup, Frame, HostReg, PioSetup, SetBits, Task};
use refusals::Refusal;
use std::io;
use std::io::Write;

/// A field's name and its number, behind a blank.
#[tactic(auto, unfolding(crate::specs::FrameText::field_text))]
pub(crate) fn write_field<W: Write>(out: &mut W, name: &str, value: u64) -> io::Result<()>
    ensures { OnOk result (Appends (W.contents out.old) (W.contents out.new) (field_text name.now value)) }
{
    write!(out, " {name}={value:x}")
}

/// The fields of a command's bytes.
#[tactic(auto, unfolding(crate::specs::FrameText::task_text))]
pub(crate) fn write_task<W: Write>(out: &mut W, task: Task) -> io::Result<()>
    ensures { OnOk result (Appends (W.contents out.old) (W.contents out.new) (task_text task)) }
{
    write_field(out, "lba", task.lba)?;
    write_field(out, "device", task.device.into())?;
    write_field(out, "count", task.count.into())
}

/// Status and error.
#[tactic(auto, unfolding(crate::specs::FrameText::status_text))]
pub(crate) fn write_status<W: Write>(out: &mut W, status: u8, error: u8) -> io::Result<()>
    ensures { OnOk result (Appends (W.contents out.old) (W.contents out.new) (status_text status error)) }
{
    write_field(out, "status", status.into())?;
    write_field(out, "error", error.into())
}

#[tactic(auto, unfolding(crate::specs::FrameText::command_text))]
fn write_command<W: Write>(out: &mut W, frame: HostReg) -> io::Result<()>
    ensures { OnOk result (Appends (W.contents out.old) (W.contents out.new) (command_text frame)) }
{
    write_field(out, "c", frame.command_bit.into())?;
    write_field(out, "command", frame.command.into())?;
    write_field(out, "features", frame.features.into())
}

#[tactic(auto, unfolding(crate::specs::FrameText::place_text))]
fn write_place<W: Write>(out: &mut W, lba: u64, device: u8) -> io::Result<()>
    ensures { OnOk result (Appends (W.contents out.old) (W.contents out.new) (place_text lba device)) }
{
    write_field(out, "lba", lba)?;
    write_field(out, "device", device.into())
}

#[tactic(auto, unfolding(crate::specs::FrameText::high_text))]
fn write_high<W: Write>(out: &mut W, high: u8) -> io::Result<()>
    ensures { OnOk result (Appends (W.contents out.old) (W.contents out.new) (high_text high)) }
{
    write_field(out, "features_high", high.into())
}

#[tactic(auto, unfolding(crate::specs::FrameText::count_text))]
fn write_count<W: Write>(out: &mut W, features_high: u8, count: u16) -> io::Result<()>
    ensures { OnOk result (Appends (W.contents out.old) (W.contents out.new) (count_text features_high count)) }
{
    write_high(out, features_high)?;
    write_field(out, "count", count.into())
}

#[tactic(auto, unfolding(crate::specs::FrameText::host_text))]
fn write_host<W: Write>(out: &mut W, frame: HostReg) -> io::Result<()>
    ensures { OnOk result (Appends (W.contents out.old) (W.contents out.new) (host_text frame)) }
{
    write_command(out, frame)?;
    write_place(out, frame.task.lba, frame.task.device)?;
    write_count(out, frame.features_high, frame.task.count)?;
    write_field(out, "control", frame.control.into())
}

#[tactic(auto, unfolding(crate::specs::FrameText::device_text))]
fn write_device<W: Write>(out: &mut W, frame: DevReg) -> io::Result<()>
    ensures { OnOk result (Appends (W.contents out.old) (W.contents out.new) (device_text frame)) }
{
    write_field(out, "i", frame.interrupt.into())?;
    write_status(out, frame.status, frame.error)?;
    write_task(out, frame.task)
}

#[tactic(auto, unfolding(crate::specs::FrameText::bits_text))]
fn write_bits<W: Write>(out: &mut W, frame: SetBits) -> io::Result<()>
    ensures { OnOk result (Appends (W.contents out.old) (W.contents out.new) (bits_text frame)) }
{
    write_field(out, "i", frame.interrupt.into())?;
    write_status(out, frame.status, frame.error)?;
    write_field(out, "sactive", frame.active.into())
}

#[tactic(auto, unfolding(crate::specs::FrameText::flags_text))]
fn write_flags<W: Write>(out: &mut W, frame: DmaSetup) -> io::Result<()>
    ensures { OnOk result (Appends (W.contents out.old) (W.contents out.new) (flags_text frame)) }
{
    write_field(out, "a", frame.auto.into())?;
    write_field(out, "i", frame.interrupt.into())?;
    write_field(out, "d", frame.to_host.into())
}

#[tactic(auto, unfolding(crate::specs::FrameText::setup_text))]
fn write_setup<W: Write>(out: &mut W, frame: DmaSetup) -> io::Result<()>
    ensures { OnOk result (Appends (W.contents out.old) (W.contents out.new) (setup_text frame)) }
{
    write_flags(out, frame)?;
    write_field(out, "tag", frame.tag.into())?;
    write_field(out, "offset", frame.offset.into())?;
    write_field(out, "byte_count", frame.count.into())
}

#[tactic(auto, unfolding(crate::specs::FrameText::ending_text))]
fn write_ending<W: Write>(out: &mut W, frame: PioSetup) -> io::Result<()>
    ensures { OnOk result (Appends (W.contents out.old) (W.contents out.new) (ending_text frame)) }
{
    write_field(out, "ending_status", frame.ending.into())?;
    write_field(out, "byte_count", frame.bytes.into())
}

#[tactic(auto, unfolding(crate::specs::FrameText::pio_text))]
fn write_pio<W: Write>(out: &mut W, frame: PioSetup) -> io::Result<()>
    ensures { OnOk result (Appends (W.contents out.old) (W.contents out.new) (pio_text frame)) }
{
    write_field(out, "i", frame.interrupt.into())?;
    write_field(out, "d", frame.to_host.into())?;
    write_status(out, frame.status, frame.error)?;
    write_task(out, frame.task)?;
    write_ending(out, frame)
}

// A label, and fields behind it.
fn write_fields<W: Write>(out: &mut W, frame: Frame) -> io::Result<()>
    ensures { OnOk result (Appends (W.contents out.old) (W.contents out.new) (fields_text frame)) }
{
    match frame {
        Frame::Host(frame) => {
            out.write_all(b"27")?;
            write_host(out, frame)
        }
        Frame::Device(frame) => {
            out.write_all(b"34")?;
            write_device(out, frame)
        }
        Frame::Bits(frame) => {
            out.write_all(b"A1")?;
            write_bits(out, frame)
        }
        Frame::Setup(frame) => {
            out.write_all(b"41")?;
            write_setup(out, frame)
        }
        Frame::Activate => out.write_all(b"39"),
        Frame::Data(size) => write!(out, "46 payload={size}"),
        Frame::Bist => out.write_all(b"58"),
        Frame::Pio(frame) => {
            out.write_all(b"5F")?;
            write_pio(out, frame)
        }
    }
}

/// The kind of a frame and its fields, or the refusal.
pub(crate) fn write_frame<W: Write>(out: &mut W, answer: Result<Frame, Refusal>) -> io::Result<()>
    ensures { OnOk result (Appends (W.contents out.old) (W.contents out.new) (frame_text answer)) }
{
    match answer {
        Ok(frame) => {
            write_fields(out, frame)?;
            out.write_all(b"\n")
        }
        Err(refusal) => writeln!(out, "refused {refusal}"),
    }
}
