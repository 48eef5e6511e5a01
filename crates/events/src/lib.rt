// Events: an event as its bytes, one event to a call of the device, and the run of an event file, from any reader to any writer. Every public function is total and has no `requires`.
#![tactic(auto)]

mod aloud;
mod asked;
mod bench;
mod by_value;
mod ended;
mod errors;
mod event_bytes;
mod host_data;
mod kinds;
mod lines;
mod output;
mod plays;
mod reading;
mod running;
mod settings;
mod starts;
mod telling;

pub use aloud::{PIECE, exit_status, run_aloud};
pub use asked::{Event, first_event};
pub use by_value::play_by_value;
pub use ended::{Ended, say};
pub use errors::RunError;
pub use kinds::{EVENT_LIMIT, InputEnd, Kind};
pub use lines::Format;
pub use plays::play;
pub use running::{a_run_has_one_text, run};
pub use settings::{SETTINGS_SIZE, first_settings};
pub use starts::{RUN_CAPACITY_LIMIT, start};
