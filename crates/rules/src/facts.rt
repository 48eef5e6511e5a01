// What a decision looks at: lengths and control values, never medium or payload bytes.
ghost use Rattle.std.specs.Prelude.{◌≡◌};
ghost use Rattle.rules.specs.Positions.{phase_to, move_for};

use crate::acts::Move;
use device_state::{Entry, Settings, Status};

/// The tests of `Contradiction` (1), `MediumLength` (2), `ReplyShort` (3) and `SetUnready` (11), settings and control values,
/// and the one entry that the call is about. `frame_act` and `event_act` say what a call makes the device do.
#[derive(Clone, Copy, Debug, PartialEq, Eq)]
pub struct Facts {
    /// `Contradiction` (1): the state contradicts itself
    pub contradicts: bool,
    /// `MediumLength` (2), of a host frame and of a send: the medium is not 512 × capacity bytes
    pub medium_wrong: bool,
    /// `ReplyShort` (3), of a call that replies: the reply buffer is under 8,196 bytes
    pub reply_short: bool,
    /// depth in tags, capacity in sectors, the rows that are kept
    pub settings: Settings,
    /// the tags outstanding, the open phase, halted, held
    pub status: Status,
    /// that of the tag asked for, or of the open phase; an idle one if there is none
    pub entry: Entry,
    /// `SetUnready` (11): a tag of the set asked for is not outstanding or not wholly moved; false of a call that names no set
    pub some_unready: bool,
}

impl Facts {
    /// The tag of the open phase, if one is open whose command moves data that way. `write`: from the host.
    pub(crate) fn open_phase(&self, write: bool) -> Option<u32>
        ensures { result ≡ phase_to self.now.status self.now.entry write }
    {
        self.status.phase.filter(|_| self.entry.write == write)
    }
}

/// The next `size` bytes of a command of a tag, or what is left of it.
#[tactic(auto, unfolding(crate::specs::Positions::advanced_by))]
pub fn next_move(tag: u32, entry: Entry, size: usize) -> Move
    ensures { result ≡ move_for tag entry size }
{
    let progress = entry.progress();
    Move {
        tag,
        at: device_state::place(entry.first, entry.moved),
        size: progress.part(size),
        entry: Entry {
            moved: progress.after(size).moved,
            ..entry
        },
        last: progress.is_last(size),
    }
}
