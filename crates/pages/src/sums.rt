// The sum of a page's bytes.
ghost use Rattle.std.specs.Prelude.{◌≡◌};
ghost use Rattle.pages.specs.Sum.{sum256, sealed_page};

use crate::PAGE_SIZE;

/// The sum of all bytes, modulo 256.
#[tactic(auto, unfolding(crate::specs::Sum::sum256))]
pub fn byte_sum(bytes: &[u8]) -> u8
    ensures { result ≡ sum256 bytes.now }
{
    bytes.iter().fold(0, |sum, &byte| sum.wrapping_add(byte))
}

/// Sets the last byte of a page, which is still 0, to what is missing to a sum of 0 modulo 256.
#[tactic(auto, unfolding(crate::specs::Sum::sealed_page))]
pub fn seal(page: &mut [u8; PAGE_SIZE])
    ensures { page.new ≡ sealed_page page.old }
{
    page[PAGE_SIZE - 1] = byte_sum(page).wrapping_neg();
}
