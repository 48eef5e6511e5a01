// Page 11h by value, and its writer: the page in front of the buffer, or 25, or 26, and then no byte is changed.
ghost use Rattle.std.specs.Prelude.{◌≡◌};
ghost use Rattle.frames.specs.Emit.{WriteGiven};
ghost use Rattle.counters.specs.Rows.{keeps_both};
ghost use Rattle.pages.specs.Layout11.{page11, counters_page};

use crate::PAGE_SIZE;
use crate::layout11::page11_bytes;
use counters::{Counters, keeps_both};
use refusals::Refusal;

/// Page 11h of the counters; `Unfit` where the mask does not keep rows 0 and 9. Values of rows that the mask does not
/// keep do not stand in it.
pub fn counters_page(mask: u16, values: &Counters) -> Result<[u8; PAGE_SIZE], Refusal>
    ensures { result ≡ counters_page mask values.now }
{
    if !keeps_both(mask) {
        return Err(Refusal::Unfit);
    }
    Ok(page11_bytes(mask, values))
}

/// Writes page 11h of the counters to the front of `buf`: 512, the bytes written; `Unfit` where the mask does not keep
/// rows 0 and 9, `BufferShort` where `buf` has no room, and then no byte is changed. Values of rows that the mask does
/// not keep are not written.
#[tactic(auto, unfolding(frames::specs::Emit::write_refusal, refusals::specs::First::first_of))]
pub fn write_counters(buf: &mut [u8], mask: u16, values: &Counters) -> Result<usize, Refusal>
    ensures { WriteGiven (keeps_both mask) (page11 mask values.now) buf.old result buf.new }
{
    let page = counters_page(mask, values)?;
    frames::emit(buf, true, &page, b"")
}
