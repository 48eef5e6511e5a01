// The parts that several frames share: single bytes, flags, the status halves of A1h, the command's bytes, and the layout of 27h, 34h and 5Fh.
ghost use Rattle.std.specs.Prelude.{◌≡◌, ◌%◌, get_or, drop};
ghost use Rattle.std.specs.Int.Bits.{bit_and};
ghost use Rattle.bits.specs.Bit.{bit_in};
ghost use Rattle.frames.specs.Shared.{flags_of, LbaGiven, task_of, srst_of, tag_of, sectors_of, register_bytes, task_fits};

use crate::sizes::DATA_HEAD_SIZE;

/// Bytes 4-10 and 12-13 of the frames that repeat a command: LBA 0-23 at 4-6, device at 7, LBA 24-47 at 8-10, count at 12-13.
#[derive(Clone, Copy, Debug, Default, PartialEq, Eq)]
pub struct Task {
    /// a sector's number, in 48 bits
    pub lba: u64,
    /// the byte, as it stands
    pub device: u8,
    /// sectors; of a queued command bits 7:3 are its tag
    pub count: u16,
}

impl Task {
    /// Bytes 4-10 and 12-13 of a frame; past its end stand zeros, so that who asks has seen to the length.
    pub fn from_frame(frame: &[u8]) -> Task
        ensures { result ≡ task_of frame.now }
    {
        Task {
            lba: lba_of(frame),
            device: byte_of(frame, 7),
            count: u16::from_le_bytes([byte_of(frame, 12), byte_of(frame, 13)]),
        }
    }

    /// Of the values that a frame repeats from a command only the LBA can be too large for its bits.
    pub fn fits(self) -> bool
        ensures { result ≡ task_fits self }
    {
        self.lba >> 48 == 0
    }
}

/// The byte at a place of a frame; past the end, 0.
pub fn byte_of(bytes: &[u8], at: usize) -> u8
    ensures { result ≡ get_or bytes.now at 0 }
{
    bytes.get(at).copied().unwrap_or(0)
}

/// The payload of a data frame: the bytes behind its head; none of a frame that ends with its head or before.
pub fn payload_of(frame: &[u8]) -> &[u8]
    ensures { result.now ≡ drop 4 frame.now }
{
    frame.get(DATA_HEAD_SIZE..).unwrap_or_default()
}

/// A bit of a byte; from 8 on there is none, and it is off.
#[tactic(auto, using(crate::proofs::SharedLaws::bit_of_byte))]
pub fn flag(byte: u8, index: u32) -> bool
    ensures { result ≡ bit_in 8 byte index }
{
    bits::bit(u32::from(byte), index)
}

/// Bit 2 of the control byte is SRST.
pub fn srst(control: u8) -> bool
    ensures { result ≡ srst_of control }
{
    flag(control, 2)
}

/// Byte 1: bits 7, 6 and 5.
pub fn flags(seven: bool, six: bool, five: bool) -> u8
    ensures { result ≡ flags_of seven six five }
{
    (u8::from(seven) << 7) | (u8::from(six) << 6) | (u8::from(five) << 5)
}

/// Bits 6:4 and 2:0.
pub fn halves(status: u8) -> u8
    ensures { result ≡ bit_and status 0x77 }
{
    status & 0x77
}

fn lba_of(bytes: &[u8]) -> u64
    ensures { LbaGiven bytes.now result }
{
    let [l0, l1, l2, l3, l4, l5] = [4, 5, 6, 8, 9, 10].map(|at| byte_of(bytes, at));
    u64::from_le_bytes([l0, l1, l2, l3, l4, l5, 0, 0])
}

fn low5(number: u16) -> u8
    ensures { result ≡ number % 32 }
{
    (number & 31) as u8
}

/// Bits 7:3 of byte 12, the low byte of the count, hold the tag.
pub fn tag_of(count: u16) -> u8
    ensures { result ≡ tag_of count }
{
    low5(count >> 3)
}

/// Features and features high are the sector count (0 = 65,536).
#[tactic(auto, unfolding(crate::specs::Shared::sectors_of))]
pub fn sectors_of(features: u8, high: u8) -> u32
    ensures { result ≡ sectors_of features high }
{
    match u16::from_le_bytes([features, high]) {
        0 => 65536,
        count => u32::from(count),
    }
}

/// What stands in the layout that 27h, 34h and 5Fh share: bytes 0 to 3, the command's bytes, bytes 11 and 15, and the
/// byte count at 16-17. The rest is 0.
#[derive(Clone, Copy, Debug, Default, PartialEq, Eq)]
pub struct Registers {
    /// byte 0
    pub kind: u8,
    /// byte 1
    pub flags: u8,
    /// byte 2
    pub second: u8,
    /// byte 3
    pub third: u8,
    /// bytes 4-10 and 12-13
    pub task: Task,
    /// byte 11
    pub eleven: u8,
    /// byte 15
    pub fifteen: u8,
    /// bytes 16-17
    pub bytes: u16,
}

impl Registers {
    /// The bytes of the layout. It refuses nothing: of an LBA the 48 bits that have a place are laid, and the writers
    /// above, which ask `Task::fits`, turn a larger one down.
    #[tactic(auto, using(crate::proofs::TaskLaws::register_list))]
    pub fn to_bytes(self) -> [u8; 20]
        ensures { result ≡ register_bytes self }
    {
        let Registers {
            kind,
            flags,
            second,
            third,
            task,
            eleven,
            fifteen,
            bytes,
        } = self;
        let [l0, l1, l2, l3, l4, l5, _, _] = task.lba.to_le_bytes();
        let device = task.device;
        let [c0, c1] = task.count.to_le_bytes();
        let [n0, n1] = bytes.to_le_bytes();
        [
            kind, flags, second, third, l0, l1, l2, device, l3, l4, l5, eleven, c0, c1, 0, fifteen,
            n0, n1, 0, 0,
        ]
    }
}
