// Whole texts to any writer, and whole buffers or single bytes from any reader; and what is said where a text is lost.
#![tactic(auto)]

mod gathered;
mod lost;
mod reading;
mod watched;
mod writing;

pub use gathered::Lines;
pub use lost::complain;
pub use reading::{fill, read_byte};
pub use watched::Watched;
pub use writing::put;
