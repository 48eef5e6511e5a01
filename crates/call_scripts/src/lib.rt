// Scripts of calls: a line of text to a command, and what the device answers to it as text. Every public function is total and has no `requires`.
#![tactic(auto)]

mod answering;
mod answers;
mod applying;
mod bench;
mod bytes;
mod calls;
mod changes;
mod check_ends;
mod checking;
mod commands;
mod counting;
mod data_frames;
mod files;
mod found;
mod frame_text;
mod judging;
mod lines;
mod loans;
mod names;
mod numbers;
mod parts;
mod pieces;
mod read_lines;
mod readings;
mod rows;
mod running;
mod scripts;
mod told;
mod verbs;
mod wanted;
mod words;
mod write_lines;
mod writings;

pub use bytes::Bytes;
pub use changes::Change;
pub use check_ends::CheckEnd;
pub use commands::Command;
pub use found::Found;
pub use pieces::run_script;
pub use readings::Reading;
pub use running::a_script_has_one_text;
pub use scripts::check_scripts;
pub use writings::{FrameFields, Writing};

// The bytes of the medium of a bench, the largest that a device has; a call is lent a front of it.
const MEDIUM_SIZE: usize = 0x200_0000;

// The bytes of its reply buffer.
const REPLY_SIZE: u16 = 0x4000;

// The most bytes that a line tells, as those of a frame.
const BYTES_MOST: u32 = 0x4000;

// The most bytes of the payload that `data` counts up.
const PAYLOAD_MOST: u16 = 0x2004;

// What every byte of the reply buffer is before a call, so that one that a call changed shows.
const UNTOUCHED: u8 = 0xEE;
