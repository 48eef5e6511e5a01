// The bytes of page 10h of which a bit is set that no field is named for.
ghost use Rattle.std.specs.Prelude.{◌≡◌};
ghost use Rattle.frames.specs.Layout.{masks};
ghost use Rattle.pages.specs.Page10.{log_layout};
ghost use Rattle.pages.specs.Others10.{others_in, OtherBytesGiven};

use crate::{PAGE_SIZE, byte_sum};
use refusals::Refusal;

// The bits of each byte that are named: those of the fields, and all of the sum byte. Under NQ no tag is told.
fn named_bits(nq: bool) -> [u8; PAGE_SIZE]
    ensures { result ≡ masks (log_layout nq) }
{
    let mut named = [0; PAGE_SIZE];
    named[0] = if nq { 0x80 } else { 0x9f };
    named[2..=10].fill(0xff);
    named[12..=13].fill(0xff);
    named[PAGE_SIZE - 1] = 0xff;
    named
}

fn count_bytes(page: &[u8; PAGE_SIZE]) -> usize
    ensures { result ≡ others_in page.now }
{
    let named = named_bits(frames::flag(page[0], 7));
    page.iter()
        .zip(&named)
        .filter(|(byte, named)| **byte & **named != **byte)
        .count()
}

/// How many bytes of page 10h have a bit set that is no named field's: bits 6:5 of byte 0, and 4:0 under NQ, and all of bytes
/// 1, 11 and 14 to 510. `PageLength` where the page is not 512 bytes long, else `PageSum` where its sum is wrong.
#[tactic(auto, unfolding(crate::specs::Others10::count_other_bytes, refusals::specs::First::first_of))]
pub fn count_other_bytes(page: &[u8]) -> Result<usize, Refusal>
    ensures { OtherBytesGiven page.now result }
{
    let page: &[u8; PAGE_SIZE] = page.try_into().map_err(|_| Refusal::PageLength)?;
    if byte_sum(page) != 0 {
        return Err(Refusal::PageSum);
    }
    Ok(count_bytes(page))
}
