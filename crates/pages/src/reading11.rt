// Log page 11h: the answer for a counter's number.
ghost use Rattle.std.specs.Prelude.{Ok, Err, ◌≡◌};
ghost use Rattle.bits.specs.Pick.{pick};
ghost use Rattle.pages.specs.Entries.{entries};
ghost use Rattle.pages.specs.Read11.{damaged, value_in, PageCounterGiven};

use crate::number::is_counter_number;
use crate::value::CounterValue;
use crate::walk::Walk;
use crate::{PAGE_SIZE, byte_sum};
use refusals::Refusal;

// The walk from 4 to 0000h or to 508. It goes on after a hit, since a fault or a second hit behind it refuses the page.
#[tactic(auto, using(crate::proofs::Walking::finding))]
fn find_counter(page: &[u8; PAGE_SIZE], number: u16) -> Result<Option<CounterValue>, Refusal>
    ensures { result ≡ pick (damaged number (entries page.now)) (Err Refusal.PageDamaged) (Ok (value_in page.now number (entries page.now))) }
{
    let mut found = None;
    for entry in Walk::new(page) {
        let entry = entry?;
        if entry.id.is_asked(number) {
            if found.is_some() {
                return Err(Refusal::PageDamaged);
            }
            found = Some(CounterValue {
                value: bits::le(page, entry.start, entry.bytes),
                bytes: entry.bytes,
            });
        }
    }
    Ok(found)
}

/// Reads page 11h for a counter's number: its value, or `None` where the page has no such counter. `PageLength` where it
/// is not 512 bytes long, else `NoCounter` where the number is not 1 to FFFh, else `PageSum` where its sum is wrong, else
/// `PageDamaged` where it has an entry that no page may have, or the number twice.
#[tactic(auto, unfolding(crate::specs::Read11::read_counter, refusals::specs::First::first_of))]
pub fn read_counter(page: &[u8], number: u16) -> Result<Option<CounterValue>, Refusal>
    ensures { PageCounterGiven page.now number result }
{
    let page: &[u8; PAGE_SIZE] = page.try_into().map_err(|_| Refusal::PageLength)?;
    if !is_counter_number(number) {
        return Err(Refusal::NoCounter);
    }
    if byte_sum(page) != 0 {
        return Err(Refusal::PageSum);
    }
    find_counter(page, number)
}
