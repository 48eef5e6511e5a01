// The frame writers: the frame in front of the buffer, or a refusal, and then no byte is changed.
#![tactic(auto, unfolding(crate::specs::Write::encode, crate::specs::Write::fits))]

ghost use Rattle.std.specs.Prelude.{◌≡◌, eqb};
ghost use Rattle.std.specs.Int.Bits.{bit_and};
ghost use Rattle.frames.specs.Emit.{WriteGiven};
ghost use Rattle.frames.specs.Shared.{register_bytes, task_fits};
ghost use Rattle.frames.specs.Write.{encode, with_status, FrameWriteGiven};
ghost use Rattle.frames.specs.Write.FrameValue.{host, device, set_bits, setup, activate, payload, bist, pio};

use crate::shapes::{DevReg, DmaSetup, HostReg, PioSetup, SetBits};
use crate::{DATA_HEAD, FrameKind, Registers, emit, flags, halves, is_payload_size};
use refusals::Refusal;

// The layout that 27h, 34h and 5Fh share.
fn write_registers(buf: &mut [u8], registers: Registers) -> Result<usize, Refusal>
    ensures { WriteGiven (task_fits registers.task) (register_bytes registers) buf.old result buf.new }
{
    emit(buf, registers.task.fits(), &registers.to_bytes(), b"")
}

/// 27h, host register: 20 bytes.
///
/// # Errors
/// `Unfit` (25) for an LBA of more than 48 bits, and else `BufferShort` (26).
#[tactic(auto, unfolding(crate::specs::Write::encode, crate::specs::Write::fits, crate::specs::Shared::register_bytes), using(crate::proofs::FitLaws::register_frames))]
pub fn write_host(buf: &mut [u8], frame: HostReg) -> Result<usize, Refusal>
    ensures { FrameWriteGiven (host frame) buf.old result buf.new }
{
    let registers = Registers {
        kind: FrameKind::HostRegister as u8,
        flags: flags(frame.command_bit, false, false),
        second: frame.command,
        third: frame.features,
        task: frame.task,
        eleven: frame.features_high,
        fifteen: frame.control,
        ..Registers::default()
    };
    write_registers(buf, registers)
}

/// 34h, device register: 20 bytes.
///
/// # Errors
/// `Unfit` (25) for an LBA of more than 48 bits, and else `BufferShort` (26).
#[tactic(auto, unfolding(crate::specs::Write::encode, crate::specs::Write::fits, crate::specs::Shared::register_bytes), using(crate::proofs::FitLaws::register_frames))]
pub fn write_device(buf: &mut [u8], frame: DevReg) -> Result<usize, Refusal>
    ensures { FrameWriteGiven (device frame) buf.old result buf.new }
{
    let registers = Registers {
        kind: FrameKind::DeviceRegister as u8,
        flags: flags(false, frame.interrupt, false),
        second: frame.status,
        third: frame.error,
        task: frame.task,
        ..Registers::default()
    };
    write_registers(buf, registers)
}

/// 5Fh, PIO Setup: 20 bytes.
///
/// # Errors
/// `Unfit` (25) for an LBA of more than 48 bits, and else `BufferShort` (26).
#[tactic(auto, unfolding(crate::specs::Write::encode, crate::specs::Write::fits, crate::specs::Shared::register_bytes), using(crate::proofs::FitLaws::register_frames))]
pub fn write_pio(buf: &mut [u8], frame: PioSetup) -> Result<usize, Refusal>
    ensures { FrameWriteGiven (pio frame) buf.old result buf.new }
{
    let registers = Registers {
        kind: FrameKind::PioSetup as u8,
        flags: flags(false, frame.interrupt, frame.to_host),
        second: frame.status,
        third: frame.error,
        task: frame.task,
        fifteen: frame.ending,
        bytes: frame.bytes,
        ..Registers::default()
    };
    write_registers(buf, registers)
}

impl SetBits {
    // Of the status what has a place; `fits` says whether that is all of it.
    fn to_bytes(&self) -> [u8; 8]
        ensures { result ≡ encode (set_bits (with_status self.now (bit_and self.now.status 0x77))) }
    {
        let kind = FrameKind::SetDeviceBits as u8;
        let one = flags(false, self.interrupt, false);
        let [a0, a1, a2, a3] = self.active.to_le_bytes();
        [kind, one, halves(self.status), self.error, a0, a1, a2, a3]
    }

    // Status bits 7 and 3 have no place in A1h.
    fn fits(&self) -> bool
        ensures { result ≡ eqb (bit_and self.now.status 0x77) self.now.status }
    {
        halves(self.status) == self.status
    }
}

/// A1h, Set Device Bits: 8 bytes.
///
/// # Errors
/// `Unfit` (25) for a status with bit 7 or bit 3, and else `BufferShort` (26).
pub fn write_bits(buf: &mut [u8], frame: SetBits) -> Result<usize, Refusal>
    ensures { FrameWriteGiven (set_bits frame) buf.old result buf.new }
{
    emit(buf, frame.fits(), &frame.to_bytes(), b"")
}

impl DmaSetup {
    fn to_bytes(&self) -> [u8; 28]
        ensures { result ≡ encode (setup self.now) }
    {
        let kind = FrameKind::DmaSetup as u8;
        let one = flags(self.auto, self.interrupt, self.to_host);
        let [t0, t1, t2, t3] = self.tag.to_le_bytes();
        let [o0, o1, o2, o3] = self.offset.to_le_bytes();
        let [c0, c1, c2, c3] = self.count.to_le_bytes();
        [
            kind, one, 0, 0, t0, t1, t2, t3, 0, 0, 0, 0, 0, 0, 0, 0, o0, o1, o2, o3, c0, c1, c2,
            c3, 0, 0, 0, 0,
        ]
    }
}

/// 41h, DMA Setup: 28 bytes.
///
/// # Errors
/// `BufferShort` (26) alone: every value of it has the width of its field.
pub fn write_setup(buf: &mut [u8], frame: DmaSetup) -> Result<usize, Refusal>
    ensures { FrameWriteGiven (setup frame) buf.old result buf.new }
{
    emit(buf, true, &frame.to_bytes(), b"")
}

/// 39h, DMA Activate: 4 bytes.
///
/// # Errors
/// `BufferShort` (26).
pub fn write_activate(buf: &mut [u8]) -> Result<usize, Refusal>
    ensures { FrameWriteGiven activate buf.old result buf.new }
{
    emit(buf, true, &[FrameKind::DmaActivate as u8], &[0; 3])
}

/// 58h, BIST Activate: 12 bytes.
///
/// # Errors
/// `BufferShort` (26).
pub fn write_bist(buf: &mut [u8]) -> Result<usize, Refusal>
    ensures { FrameWriteGiven bist buf.old result buf.new }
{
    emit(buf, true, &[FrameKind::BistActivate as u8], &[0; 11])
}

/// 46h, data: the payload is copied once, from the caller's slice to behind the head.
///
/// # Errors
/// `Unfit` (25) for a payload that is not 4 to 8,192 bytes in steps of 4, and else `BufferShort` (26).
pub fn write_data(buf: &mut [u8], bytes: &[u8]) -> Result<usize, Refusal>
    ensures { FrameWriteGiven (payload bytes.now) buf.old result buf.new }
{
    emit(buf, is_payload_size(bytes.len()), &DATA_HEAD, bytes)
}
