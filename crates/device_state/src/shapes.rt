// What the state holds: nothing that the list of contradictions does not speak of.
ghost use Rattle.std.specs.Prelude.{◌≡◌};
ghost use Rattle.device_state.specs.State.{task_in, echo_of, medium_size, whole_of, progress_of, sectors_of};

use crate::{Progress, Sectors};
use frames::Task;

/// Queue depth, capacity in sectors, and which rows of page 11h are kept.
#[derive(Clone, Copy, Debug, Default, PartialEq, Eq)]
pub struct Settings {
    /// tags, 1 to 32: a command's tag is below it
    pub depth: u32,
    /// sectors, 1 to 65,536
    pub capacity: u32,
    /// bit r keeps row r of page 11h
    pub mask: u16,
}

// The fixed limits, and the medium that the settings ask for.
impl Settings {
    /// The most tags.
    pub const DEPTH_LIMIT: u32 = 32;
    /// The entries of the table: one a tag.
    pub const ENTRIES: usize = Settings::DEPTH_LIMIT as usize;

    /// The most sectors.
    pub const CAPACITY_LIMIT: u32 = 65536;

    /// The bytes of the medium: 512 for each sector of the capacity, whatever that is.
    pub fn medium_size(&self) -> usize
        ensures { result ≡ medium_size self.now.capacity }
    {
        crate::SECTOR_SIZE * self.capacity as usize
    }
}

/// Bytes 4-10 and 12-13 of a command, as they stand.
#[derive(Clone, Copy, Debug, Default, PartialEq, Eq)]
pub struct Echo {
    /// byte 4, the lowest of the LBA
    pub b4: u8,
    /// byte 5, of the LBA
    pub b5: u8,
    /// byte 6, of the LBA
    pub b6: u8,
    /// byte 7, the device
    pub b7: u8,
    /// byte 8, of the LBA above byte 6
    pub b8: u8,
    /// byte 9, of the LBA
    pub b9: u8,
    /// byte 10, the highest of the LBA
    pub b10: u8,
    /// byte 12, the low byte of the count
    pub b12: u8,
    /// byte 13, the high one
    pub b13: u8,
}

/// The table's entry of a tag: range in sectors, what has moved in bytes, the command's bytes 3-13, and the direction, which stands last: no hole. An idle one is all zeros.
#[derive(Clone, Copy, Debug, Default, PartialEq, Eq)]
pub struct Entry {
    /// the first sector
    pub first: u32,
    /// sectors
    pub count: u32,
    /// bytes
    pub moved: u32,
    /// byte 3 of the command, the low byte of its sector count
    pub features: u8,
    /// byte 11, the high one
    pub features_high: u8,
    /// the command's other bytes
    pub echo: Echo,
    /// from the host to the medium, else the other way
    pub write: bool,
}

impl Entry {
    /// The bytes of the whole command; more than 65,536 sectors count as that many.
    pub fn whole(&self) -> u32
        ensures { result ≡ whole_of self.now.count }
    {
        crate::SECTOR_SIZE as u32 * self.count.min(Settings::CAPACITY_LIMIT)
    }

    /// The bytes of the whole command, and what has moved of them.
    pub fn progress(&self) -> Progress
        ensures { result ≡ progress_of self.now }
    {
        Progress {
            whole: self.whole(),
            moved: self.moved,
        }
    }

    /// The sectors of the command.
    pub fn sectors(&self) -> Sectors
        ensures { result ≡ sectors_of self.now }
    {
        Sectors {
            first: u64::from(self.first),
            count: self.count,
        }
    }
}

/// The table: an entry for each tag, by its number.
pub type Entries = [Entry; Settings::ENTRIES];

/// The outstanding tags; the tag of the open phase, if one is open; halted; reset held.
#[derive(Clone, Copy, Debug, Default, PartialEq, Eq)]
pub struct Status {
    /// bit t is tag t
    pub outstanding: u32,
    /// the tag of the open phase, if one is open: as wide as who hands a state in may make it; one that is not outstanding contradicts
    pub phase: Option<u32>,
    /// by an error, until its log page is sent or a reset
    pub halted: bool,
    /// in reset, from SRST to its release
    pub held: bool,
}

/// The error record. Blank is all zeros here, though its page starts with 80h.
#[derive(Clone, Copy, Debug, Default, PartialEq, Eq)]
pub struct ErrorRecord {
    /// an error is recorded, else the record is blank
    pub set: bool,
    /// the error is of a command that was not queued, and has no tag
    pub nq: bool,
    /// 0 to 31, and 0 under NQ
    pub tag: u8,
    /// the error register
    pub error: u8,
    /// the command's bytes
    pub echo: Echo,
}

/// The command's bytes as a frame shows them.
impl From<Echo> for Task {
    ghost from_gives = { λ echo task. task ≡ task_in echo };

    #[tactic(auto, unfolding(crate::specs::State::task_in))]
    fn from(echo: Echo) -> Task {
        Task {
            lba: u64::from_le_bytes([echo.b4, echo.b5, echo.b6, echo.b8, echo.b9, echo.b10, 0, 0]),
            device: echo.b7,
            count: u16::from_le_bytes([echo.b12, echo.b13]),
        }
    }
}

/// The bytes of what a frame showed.
impl From<Task> for Echo {
    ghost from_gives = { λ task echo. echo ≡ echo_of task };

    #[tactic(auto, unfolding(crate::specs::State::echo_of))]
    fn from(task: Task) -> Echo {
        let [b4, b5, b6, b8, b9, b10, ..] = task.lba.to_le_bytes();
        let [b12, b13] = task.count.to_le_bytes();
        Echo {
            b4,
            b5,
            b6,
            b7: task.device,
            b8,
            b9,
            b10,
            b12,
            b13,
        }
    }
}
