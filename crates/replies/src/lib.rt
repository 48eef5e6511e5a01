// What the device sends: the replies of an act as frame values, and their bytes.
#![tactic(auto)]

mod emitting;
mod reply;
mod shown;
mod status;

pub use emitting::emit;
pub use shown::Shown;
