// Callers of the device: a function for each call, whose contract says of every history that the call continues what
// docs/HISTORIES.md promises of one: each command has one fate, its data moved each byte once, and SActive, replies,
// counters and refusals are what the calls before them make them. The same for an event, with the law over all that are
// played; and the event program's run, whose contract is that what it wrote is the lines of such a history.
#![tactic(auto)]

mod calling;
mod keeping;
mod playing;
mod running;

pub use calling::{
    begin, comreset, finish, first_link, host_frame, link_event, link_tally, media_error, open,
    send,
};
pub use keeping::{
    keep, kept_comreset, kept_finish, kept_host_frame, kept_link_event, kept_link_tally,
    kept_media_error, kept_open, kept_send,
};
pub use playing::{events_are_a_history, play, play_by_value, start};
pub use running::run;
