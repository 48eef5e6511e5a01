// Log page 10h: the error record, made by value and read.
ghost use Rattle.std.specs.Prelude.{◌≡◌, ◌%◌};
ghost use Rattle.bits.specs.Pick.{pick};
ghost use Rattle.pages.specs.Page10.{first_byte, fits10, page10, fields10, LogGiven};

use crate::{PAGE_SIZE, byte_sum, seal};
use frames::{Registers, Task};
use refusals::Refusal;

/// The named fields of page 10h; by default all zeros.
#[derive(Clone, Copy, Debug, Default, PartialEq, Eq)]
pub struct ErrorLog {
    /// whether the command that failed was not queued: bit 7 of byte 0
    pub nq: bool,
    /// its tag, 0 to 31, and 0 under NQ: bits 4:0 of byte 0
    pub tag: u8,
    /// the status register: byte 2
    pub status: u8,
    /// the error register: byte 3
    pub error: u8,
    /// the command's bytes: bytes 4 to 10, 12 and 13
    pub task: Task,
}

impl ErrorLog {
    /// The tag has five bits, and is 0 under NQ. All else but the LBA has the width of its field.
    #[tactic(auto, unfolding(crate::specs::Page10::fits10), using(frames::proofs::SharedLaws::high_zero, std::proofs::lemmas::Bool::Decides::nat_tests))]
    pub fn fits(self) -> bool
        ensures { result ≡ fits10 self }
    {
        self.task.fits() && self.tag >> 5 == 0 && (!self.nq || self.tag == 0)
    }
}

// Byte 0: bit 7 NQ, bits 4:0 tag.
fn first_byte(nq: bool, tag: u8) -> u8
    ensures { result ≡ first_byte nq tag }
{
    (u8::from(nq) << 7) | (tag & 31)
}

// The page of a record, for the writer that refuses.
pub(crate) fn page10_bytes(log: ErrorLog) -> [u8; PAGE_SIZE]
    ensures { result ≡ page10 log }
{
    let registers = Registers {
        kind: first_byte(log.nq, log.tag),
        second: log.status,
        third: log.error,
        task: log.task,
        ..Registers::default()
    };
    let mut page = [0u8; PAGE_SIZE];
    bits::lay(&mut page, &registers.to_bytes());
    seal(&mut page);
    page
}

// The tag as it stands, and 0 under NQ.
fn tag_shown(first: u8, nq: bool) -> u8
    ensures { result ≡ pick nq 0 (first % 32) }
{
    if nq { 0 } else { first & 31 }
}

#[tactic(auto, using(crate::proofs::Laws10::tag_named))]
fn read_fields(page: &[u8; PAGE_SIZE]) -> ErrorLog
    ensures { result ≡ fields10 page.now }
{
    let first = page[0];
    let nq = frames::flag(first, 7);
    ErrorLog {
        nq,
        tag: tag_shown(first, nq),
        status: page[2],
        error: page[3],
        task: Task::from_frame(page),
    }
}

/// Reads page 10h: its fields; `PageLength` where it is not 512 bytes long, else `PageSum` where its sum is wrong.
#[tactic(auto, unfolding(crate::specs::Page10::read_log, refusals::specs::First::first_of))]
pub fn read_log(page: &[u8]) -> Result<ErrorLog, Refusal>
    ensures { LogGiven page.now result }
{
    let page: &[u8; PAGE_SIZE] = page.try_into().map_err(|_| Refusal::PageLength)?;
    if byte_sum(page) != 0 {
        return Err(Refusal::PageSum);
    }
    Ok(read_fields(page))
}
