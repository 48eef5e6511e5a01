// What page 11h shows of a counter.
ghost use Rattle.std.specs.Prelude.{◌≡◌};
ghost use Rattle.counters.specs.Shown.{on_row};

use crate::rows::{Counters, is_kept};

/// The value that the page shows of a row; `None` for a row that is not kept, and where there is no row.
#[tactic(auto, unfolding(crate::specs::Shown::on_row))]
pub fn shown_at(mask: u16, values: &Counters, row: Option<usize>) -> Option<u64>
    ensures { result ≡ on_row mask values.now row }
{
    let row = row?;
    is_kept(mask, row).then(|| u64::from(values[row]))
}
