// The rules of the device over plain values: which rule holds for a command, a payload, a tag and a sector, and what each call makes the device do, or what it is refused with, as methods of what a decision looks at (`Facts`).
#![tactic(auto)]

mod acts;
mod command;
mod command_rules;
mod decide;
mod device_events;
mod errors;
mod event;
mod facts;
mod medium;
mod move_refusals;

pub use acts::{Act, BadReply, CountersRead, Fault, Move, Queued};
pub use command_rules::{Bad, PageAsked, TagNamed, log_zeroes, other_rule, queued_rule};
pub use device_events::some_unready;
pub use errors::CommandError;
pub use event::DeviceEvent;
pub use facts::Facts;
pub use move_refusals::{is_too_long, is_unready};
