// Refusals: their names and numbers, and the first of a list of tests that holds.
#![tactic(auto)]

mod firsts;
mod reasons;

pub use firsts::check;
pub use reasons::Refusal;
