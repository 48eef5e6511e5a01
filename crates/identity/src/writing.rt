// The page by value, and its writer: the page in front of the buffer, or 25, or 26, and then no byte is changed.
ghost use Rattle.std.specs.Prelude.{◌≡◌};
ghost use Rattle.frames.specs.Emit.{WriteGiven};
ghost use Rattle.identity.specs.Words.{fits_identity};
ghost use Rattle.identity.specs.Page.{identity_page, page_made};

use crate::page::page_bytes;
use crate::words::Identity;
use pages::PAGE_SIZE;
use refusals::Refusal;

impl Identity {
    /// The page by value; `Unfit` where the depth is not 1 to 32, or the capacity has more than 48 bits.
    pub fn page(self) -> Result<[u8; PAGE_SIZE], Refusal>
        ensures { result ≡ page_made self }
    {
        if !self.fits() {
            return Err(Refusal::Unfit);
        }
        Ok(page_bytes(self))
    }
}

/// Writes the page to the front of `buf`: 512, the bytes written; `Unfit` where the depth is not 1 to 32 or the capacity
/// has more than 48 bits, `BufferShort` where `buf` has no room, and then no byte is changed.
#[tactic(auto, unfolding(frames::specs::Emit::write_refusal, refusals::specs::First::first_of))]
pub fn write_identity(buf: &mut [u8], identity: Identity) -> Result<usize, Refusal>
    ensures { WriteGiven (fits_identity identity) (identity_page identity) buf.old result buf.new }
{
    let page = identity.page()?;
    frames::emit(buf, true, &page, b"")
}
