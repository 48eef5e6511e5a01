// How much a counter has changed.
ghost use Rattle.std.specs.Prelude.{◌≡◌, List, ℕ, option_map};
ghost use Rattle.std.specs.Borrow.{Bor};
ghost use Rattle.pages.specs.Read11.{read_counter};
ghost use Rattle.hourly_table.specs.Reading.{value_read};
ghost use Rattle.hourly_table.specs.Changes.{change, between};

use pages::{CounterValue, read_counter};

// A counter's value on a page; none where the page lacks it.
fn value_on(page: &[u8], number: u16) -> Option<CounterValue>
    ensures { result ≡ value_read (read_counter page.now number) }
{
    read_counter(page, number).ok()?
}

// From the old value to the new one.
fn change(old: CounterValue, new: CounterValue) -> Option<u64>
    ensures { result ≡ change old new }
{
    if new.value < old.value || old.is_top() || new.is_top() {
        return None;
    }
    Some(new.value - old.value)
}

/// From the page of the hour before to that of the hour.
pub(crate) fn between(number: u16, before: Option<&[u8]>, page: Option<&[u8]>) -> Option<u64>
    ensures { result ≡ between number (option_map (λ (p : Bor (List ℕ)). p.now) before.entry) (option_map (λ (p : Bor (List ℕ)). p.now) page.entry) }
{
    let old = value_on(before?, number)?;
    let new = value_on(page?, number)?;
    change(old, new)
}
