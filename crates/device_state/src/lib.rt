// What the state holds, and how its parts change; how far a command's data have moved, and where they stand in the medium; and when a state contradicts itself.
#![tactic(auto)]

mod contradicting;
mod placing;
mod progress;
mod ranges;
mod shapes;
mod status;
mod table;

pub use contradicting::{contradicts, row_refused, settings_out, tally_refused};
pub use placing::{SECTOR_SIZE, place, store};
pub use progress::Progress;
pub use ranges::Sectors;
pub use shapes::{Echo, Entries, Entry, ErrorRecord, Settings, Status};
pub use table::{clear_entries, entry_of, put_entry};
