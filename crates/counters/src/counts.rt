// Counters that stay at the top once there.
ghost use Rattle.std.specs.Prelude.{◌≡◌};
ghost use Rattle.counters.specs.Counts.{next_count, tallied, single};

use crate::{Counters, ROWS};

// As many more, held at the top.
fn raised(value: u32, amount: u32) -> u32
    ensures { result ≡ next_count value amount }
{
    value.saturating_add(amount)
}

/// As many events more at each row as its amount says. Each value stays at the top by itself.
#[tactic(auto, using(crate::proofs::CountLaws::tallied_start))]
pub fn tally(values: &mut Counters, amounts: &Counters)
    ensures { values.new ≡ tallied values.old amounts.now }
{
    for row in 0..ROWS {
        values[row] = raised(values[row], amounts[row]);
    }
}

/// One event at a row, as amounts; there are rows 0 to 15 alone, and no event of another.
#[tactic(auto, using(crate::proofs::CountLaws::single_none))]
pub fn single(row: u8) -> Counters
    ensures { result ≡ single row }
{
    let mut amounts = [0; ROWS];
    let row = usize::from(row);
    if row < ROWS {
        amounts[row] = 1;
    }
    amounts
}
