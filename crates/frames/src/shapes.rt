// What the frames say: a struct for each kind that has named fields, and the reader's answer.
use crate::Task;

/// 27h, host register.
#[derive(Clone, Copy, Debug, PartialEq, Eq)]
pub struct HostReg {
    /// C, bit 7 of byte 1.
    pub command_bit: bool,
    /// Byte 2.
    pub command: u8,
    /// Byte 3. Of a queued command the low byte of its sector count, whose high byte is `features_high`; 0 is 65,536.
    pub features: u8,
    /// Bytes 4-10 and 12-13.
    pub task: Task,
    /// Byte 11. Of a queued command the high byte of its sector count.
    pub features_high: u8,
    /// Byte 15; bit 2 is SRST.
    pub control: u8,
}

/// 34h, device register.
#[derive(Clone, Copy, Debug, PartialEq, Eq)]
pub struct DevReg {
    /// I, bit 6 of byte 1.
    pub interrupt: bool,
    /// Byte 2.
    pub status: u8,
    /// Byte 3.
    pub error: u8,
    /// Bytes 4-10 and 12-13.
    pub task: Task,
}

/// A1h, Set Device Bits.
#[derive(Clone, Copy, Debug, PartialEq, Eq)]
pub struct SetBits {
    /// I, bit 6 of byte 1.
    pub interrupt: bool,
    /// Byte 2, in which bits 6:4 and 2:0 alone have a place.
    pub status: u8,
    /// Byte 3.
    pub error: u8,
    /// SActive, bytes 4-7: bit t is the tag t.
    pub active: u32,
}

/// 41h, DMA Setup.
#[derive(Clone, Copy, Debug, PartialEq, Eq)]
pub struct DmaSetup {
    /// A, bit 7 of byte 1.
    pub auto: bool,
    /// I, bit 6 of byte 1.
    pub interrupt: bool,
    /// D, bit 5 of byte 1: the data go to the host.
    pub to_host: bool,
    /// Bytes 4-7.
    pub tag: u32,
    /// Bytes 16-19: where in the command's data it goes on, in bytes.
    pub offset: u32,
    /// Bytes 20-23: how many bytes follow.
    pub count: u32,
}

/// 5Fh, PIO Setup.
#[derive(Clone, Copy, Debug, PartialEq, Eq)]
pub struct PioSetup {
    /// I, bit 6 of byte 1.
    pub interrupt: bool,
    /// D, bit 5 of byte 1: the data go to the host.
    pub to_host: bool,
    /// Byte 2.
    pub status: u8,
    /// Byte 3.
    pub error: u8,
    /// Bytes 4-10 and 12-13.
    pub task: Task,
    /// Byte 15: the status once the data have moved.
    pub ending: u8,
    /// Bytes 16-17: how many bytes move.
    pub bytes: u16,
}

/// A frame that was read.
#[derive(Clone, Copy, Debug, PartialEq, Eq)]
pub enum Frame {
    /// 27h, a register frame of the host.
    Host(HostReg),
    /// 34h, a register frame of the device.
    Device(DevReg),
    /// A1h, Set Device Bits.
    Bits(SetBits),
    /// 41h, DMA Setup.
    Setup(DmaSetup),
    /// 39h, DMA Activate.
    Activate,
    /// 46h, data: the length of its payload, 4 to 8,192 bytes in steps of 4, which stays in the caller's slice behind
    /// 4 bytes.
    Data(usize),
    /// 58h, BIST Activate.
    Bist,
    /// 5Fh, PIO Setup.
    Pio(PioSetup),
}
