// The counters of the link: the sixteen rows, which of them are kept, how they count and stay at the top, and what is shown of one. Every public function is total and has no `requires`.
#![tactic(auto)]

mod counts;
mod rows;
mod shown;

pub use counts::{single, tally};
pub use rows::{
    COMRESET_ROW, Counters, IDENTIFIERS, INTERFACE_CRC_ROW, ROWS, is_kept, keeps_both, row_of,
};
pub use shown::shown_at;
