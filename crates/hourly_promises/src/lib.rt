// What is promised of the hourly table, a function each: no code, and the contract is the sentence.
#![tactic(auto)]

mod csv_text;
mod fields;
mod hours;
mod lines;
mod turned_down;

pub use csv_text::{numbers_told, row_is_csv, table_is_csv};
pub use fields::{change_exactly, empty_where, field_exactly, later_stands, never_zero};
pub use hours::every_hour;
pub use lines::{line_counted, line_worded};
pub use turned_down::{all_read, first_blamed, first_exactly, given_only, table_given};
