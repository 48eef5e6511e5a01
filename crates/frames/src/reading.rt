// The frame reader: an enum by value, or a refusal.
#![tactic(auto, using(crate::proofs::SharedLaws::named_flags))]

ghost use Rattle.std.specs.Prelude.{◌≡◌};
ghost use Rattle.frames.specs.Read.{frame_of, FrameGiven};

use crate::shapes::{DevReg, DmaSetup, Frame, HostReg, PioSetup, SetBits};
use crate::{FrameKind, Task, byte_of, flag, halves, payload_of};
use refusals::Refusal;

impl HostReg {
    fn from_frame(bytes: &[u8]) -> HostReg
        ensures { Frame.Host result ≡ frame_of FrameKind.HostRegister bytes.now }
    {
        HostReg {
            command_bit: flag(byte_of(bytes, 1), 7),
            command: byte_of(bytes, 2),
            features: byte_of(bytes, 3),
            task: Task::from_frame(bytes),
            features_high: byte_of(bytes, 11),
            control: byte_of(bytes, 15),
        }
    }
}

impl DevReg {
    fn from_frame(bytes: &[u8]) -> DevReg
        ensures { Frame.Device result ≡ frame_of FrameKind.DeviceRegister bytes.now }
    {
        DevReg {
            interrupt: flag(byte_of(bytes, 1), 6),
            status: byte_of(bytes, 2),
            error: byte_of(bytes, 3),
            task: Task::from_frame(bytes),
        }
    }
}

impl SetBits {
    fn from_frame(bytes: &[u8]) -> SetBits
        ensures { Frame.Bits result ≡ frame_of FrameKind.SetDeviceBits bytes.now }
    {
        SetBits {
            interrupt: flag(byte_of(bytes, 1), 6),
            status: halves(byte_of(bytes, 2)),
            error: byte_of(bytes, 3),
            active: bits::le32(bytes, 4),
        }
    }
}

impl DmaSetup {
    fn from_frame(bytes: &[u8]) -> DmaSetup
        ensures { Frame.Setup result ≡ frame_of FrameKind.DmaSetup bytes.now }
    {
        DmaSetup {
            auto: flag(byte_of(bytes, 1), 7),
            interrupt: flag(byte_of(bytes, 1), 6),
            to_host: flag(byte_of(bytes, 1), 5),
            tag: bits::le32(bytes, 4),
            offset: bits::le32(bytes, 16),
            count: bits::le32(bytes, 20),
        }
    }
}

impl PioSetup {
    fn from_frame(bytes: &[u8]) -> PioSetup
        ensures { Frame.Pio result ≡ frame_of FrameKind.PioSetup bytes.now }
    {
        PioSetup {
            interrupt: flag(byte_of(bytes, 1), 6),
            to_host: flag(byte_of(bytes, 1), 5),
            status: byte_of(bytes, 2),
            error: byte_of(bytes, 3),
            task: Task::from_frame(bytes),
            ending: byte_of(bytes, 15),
            bytes: bits::le16(bytes, 16),
        }
    }
}

// A data frame leaves its payload in the slice, behind its head.
fn frame_of(kind: FrameKind, bytes: &[u8]) -> Frame
    ensures { result ≡ frame_of kind bytes.now }
{
    match kind {
        FrameKind::HostRegister => Frame::Host(HostReg::from_frame(bytes)),
        FrameKind::DeviceRegister => Frame::Device(DevReg::from_frame(bytes)),
        FrameKind::SetDeviceBits => Frame::Bits(SetBits::from_frame(bytes)),
        FrameKind::DmaSetup => Frame::Setup(DmaSetup::from_frame(bytes)),
        FrameKind::DmaActivate => Frame::Activate,
        FrameKind::BistActivate => Frame::Bist,
        FrameKind::PioSetup => Frame::Pio(PioSetup::from_frame(bytes)),
        FrameKind::Data => Frame::Data(payload_of(bytes).len()),
    }
}

/// The frame that the bytes are.
///
/// # Errors
/// `NoFrame` (24) where byte 0 names no kind, or its kind does not allow the length.
pub fn read_frame(bytes: &[u8]) -> Result<Frame, Refusal>
    ensures { FrameGiven bytes.now result }
{
    match FrameKind::from_byte(byte_of(bytes, 0)) {
        Some(kind) if kind.allows(bytes.len()) => Ok(frame_of(kind, bytes)),
        _ => Err(Refusal::NoFrame),
    }
}
