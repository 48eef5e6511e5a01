// The kinds of frames, by the byte that names each.
ghost use Rattle.std.specs.Prelude.{◌≡◌};
ghost use Rattle.frames.specs.Size.{kind_named, size_of, allows};

use crate::sizes::{DATA_HEAD_SIZE, is_payload_size};

/// The kinds of frames; a kind's discriminant is byte 0 of its frames.
#[derive(Clone, Copy, Debug, PartialEq, Eq)]
pub enum FrameKind {
    /// 27h: a register frame from the host.
    HostRegister = 0x27,
    /// 34h: a register frame from the device.
    DeviceRegister = 0x34,
    /// 39h: the device is ready for data of the host.
    DmaActivate = 0x39,
    /// 41h: data of a queued command follow.
    DmaSetup = 0x41,
    /// 46h: data behind a head of 4 bytes.
    Data = 0x46,
    /// 58h: a test of the link.
    BistActivate = 0x58,
    /// 5Fh: data of a command that is not queued follow.
    PioSetup = 0x5F,
    /// A1h: the device finishes queued commands, or reports that one failed.
    SetDeviceBits = 0xA1,
}

impl FrameKind {
    /// The kind that a byte names, if it names one.
    pub fn from_byte(byte: u8) -> Option<FrameKind>
        ensures { result ≡ kind_named byte }
    {
        match byte {
            0x27 => Some(FrameKind::HostRegister),
            0x34 => Some(FrameKind::DeviceRegister),
            0x39 => Some(FrameKind::DmaActivate),
            0x41 => Some(FrameKind::DmaSetup),
            0x46 => Some(FrameKind::Data),
            0x58 => Some(FrameKind::BistActivate),
            0x5F => Some(FrameKind::PioSetup),
            0xA1 => Some(FrameKind::SetDeviceBits),
            _ => None,
        }
    }

    /// The length of the kind's frames, in bytes; data frames have no one length.
    pub fn size(self) -> Option<usize>
        ensures { result ≡ size_of self }
    {
        match self {
            FrameKind::HostRegister | FrameKind::DeviceRegister | FrameKind::PioSetup => Some(20),
            FrameKind::SetDeviceBits => Some(8),
            FrameKind::DmaSetup => Some(28),
            FrameKind::DmaActivate => Some(4),
            FrameKind::BistActivate => Some(12),
            FrameKind::Data => None,
        }
    }

    /// Whether a frame of the kind may have this length, in bytes.
    pub fn allows(self, length: usize) -> bool
        ensures { result ≡ allows self length }
    {
        match self {
            FrameKind::Data => is_payload_size(length.saturating_sub(DATA_HEAD_SIZE)),
            _ => self.size() == Some(length),
        }
    }
}
