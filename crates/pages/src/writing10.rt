// Page 10h by value, and its writer: the page in front of the buffer, or 25, or 26, and then no byte is changed.
ghost use Rattle.std.specs.Prelude.{◌≡◌};
ghost use Rattle.frames.specs.Emit.{WriteGiven};
ghost use Rattle.pages.specs.Page10.{fits10, page10, log_page};

use crate::PAGE_SIZE;
use crate::page10::{ErrorLog, page10_bytes};
use refusals::Refusal;

impl ErrorLog {
    /// The page of a record; `Unfit` where a value is too large for its bits or a tag stands under NQ.
    pub fn page(self) -> Result<[u8; PAGE_SIZE], Refusal>
        ensures { result ≡ log_page self }
    {
        if !self.fits() {
            return Err(Refusal::Unfit);
        }
        Ok(page10_bytes(self))
    }
}

/// Writes the page of a record to the front of `buf`: 512, the bytes written; `Unfit` where a value is too large for its
/// bits or a tag stands under NQ, `BufferShort` where `buf` has no room, and then no byte is changed.
#[tactic(auto, unfolding(frames::specs::Emit::write_refusal, refusals::specs::First::first_of))]
pub fn write_log(buf: &mut [u8], log: ErrorLog) -> Result<usize, Refusal>
    ensures { WriteGiven (fits10 log) (page10 log) buf.old result buf.new }
{
    let page = log.page()?;
    frames::emit(buf, true, &page, b"")
}
