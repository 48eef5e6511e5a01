// What is promised, a function each, in the order in which docs/HISTORIES.md tells it: no code, and the contract is the sentence.
// A promise that is dropped, or no longer holds, is refused here by the toolchain.
#![tactic(auto)]

mod examples;
mod histories;
mod states;
mod told;
mod written;

pub use examples::{
    bytes_in_full, eleven_examples, errors_and_resets_occur, every_fate_occurs, long_moves_occur,
};
pub use histories::{
    answered_exactly, carried_once, counters_told, errors_told, exists_always,
    finished_writes_stand, identity_told, no_choice_left, no_refusal_matters, one_fate,
    one_per_tag, polls_told, powered_exactly, refused_exactly, reply_rules, sactive_names,
    state_told, within_depth,
};
pub use states::{any_state_due, any_state_refused, any_state_serves, tally_is_links};
pub use told::{answers_told, counters_told_apart, written_told};
pub use written::{
    counters_read_back, errors_read_back, frames_read_back, frames_write_back, identity_made_of,
    identity_read_back, identity_same_else, untold_is_none,
};
