// Log pages in text: a page read from hex, the fields of page 10h, the counters of page 11h and what IDENTIFY DEVICE tells told in words, and each from any reader and named files to any writer. Every public function is total and has no `requires`.
#![tactic(auto)]

mod answers;
mod counter_lines;
mod disk;
mod ends;
mod fields;
mod files;
mod giving;
mod hex_words;
mod identity_lines;
mod inputs;
mod page_bytes;
mod parsing;
mod queries;
mod running;
mod shelf;
mod telling;
mod words;

pub use counter_lines::{put_counters, write_counters};
pub use disk::Disk;
pub use ends::{Lost, exit_status};
pub use fields::{put_fields, write_fields};
pub use identity_lines::write_identified;
pub use parsing::{Notation, parse_page};
pub use queries::{PageKind, Query};
pub use shelf::Shelf;
