// IDENTIFY DEVICE: the page of 512 bytes by which a host learns the queue depth and the capacity, its writer and its reader. Every public function is total and has no `requires`.
#![tactic(auto)]

mod features;
mod page;
mod reading;
mod words;
mod writing;

pub use features::Features;
pub use reading::{Identified, read_identity};
pub use words::Identity;
pub use writing::write_identity;
