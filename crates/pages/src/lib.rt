// The log pages: the error record (10h) and the counters of the link (11h), each with a reader and a writer, and the sum that both have. Every public function is total and has no `requires`.
#![tactic(auto)]

mod identifier;
mod layout11;
mod number;
mod others10;
mod others11;
mod page10;
mod reading11;
mod sums;
mod value;
mod walk;
mod writing10;
mod writing11;

pub use layout11::ENTRIES_START;
pub use number::is_counter_number;
pub use others10::count_other_bytes;
pub use others11::count_others;
pub use page10::{ErrorLog, read_log};
pub use reading11::read_counter;
pub use sums::{byte_sum, seal};
pub use value::CounterValue;
pub use writing10::write_log;
pub use writing11::{counters_page, write_counters};

/// A log page has 512 bytes, whichever it is.
pub const PAGE_SIZE: usize = 512;

// Where the entries end: behind them stand three reserved bytes and the sum byte.
pub(crate) const ENTRIES_END: usize = PAGE_SIZE - 4;
