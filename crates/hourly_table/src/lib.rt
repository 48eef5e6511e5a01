// The hourly table: of page 11h samples, each with its hour, what each counter has counted in each hour, as comma-separated
// text. Every public function is total and has no `requires`.
#![tactic(auto)]

mod changes;
mod checking;
mod hours;
mod places;
mod reasons;
mod rows;
mod samples;
mod sizing;
mod tables;
mod writing;

pub use places::place_of;
pub use reasons::TableRefusal;
pub use samples::Sample;
pub use tables::{table_size, write_table};
