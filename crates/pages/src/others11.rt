// The entries of page 11h that are none of the sixteen counters.
ghost use Rattle.std.specs.Prelude.{◌≡◌, Ok, Err, count_by};
ghost use Rattle.bits.specs.Pick.{pick};
ghost use Rattle.pages.specs.Entries.{entries};
ghost use Rattle.pages.specs.Read11.{any_fault};
ghost use Rattle.pages.specs.Others11.{entry_other, OthersGiven};

use crate::walk::Walk;
use crate::{PAGE_SIZE, byte_sum};
use refusals::Refusal;

// The whole walk, since a fault anywhere refuses the page.
#[tactic(auto, using(crate::proofs::Counting::counting))]
fn count_walked(page: &[u8; PAGE_SIZE]) -> Result<usize, Refusal>
    ensures { result ≡ pick (any_fault (entries page.now)) (Err Refusal.PageDamaged) (Ok (count_by entry_other (entries page.now))) }
{
    let mut others = 0;
    for entry in Walk::new(page) {
        if entry?.id.is_other() {
            others += 1;
        }
    }
    Ok(others)
}

/// How many entries of page 11h are none of the sixteen counters of `counters::IDENTIFIERS`: a vendor's, or of a number
/// outside the sixteen, each as often as it stands there. `PageLength` where the page is not 512 bytes long, else
/// `PageSum` where its sum is wrong, else `PageDamaged` where it has an entry that no page may have.
#[tactic(auto, unfolding(crate::specs::Others11::count_others, refusals::specs::First::first_of))]
pub fn count_others(page: &[u8]) -> Result<usize, Refusal>
    ensures { OthersGiven page.now result }
{
    let page: &[u8; PAGE_SIZE] = page.try_into().map_err(|_| Refusal::PageLength)?;
    if byte_sum(page) != 0 {
        return Err(Refusal::PageSum);
    }
    count_walked(page)
}
