// The hourly table of a named file, to any writer: samples in lines of text, each with its page in hex or in a file that it
// names, and what a run prints and says for them. Every public function is total and has no `requires`.
#![tactic(auto)]

mod answers;
mod blaming;
mod entries;
mod hours;
mod page_sources;
mod questions;
mod readings;
mod running;
mod saying;
mod tables;
mod words;

pub use questions::Question;
pub use running::run;
