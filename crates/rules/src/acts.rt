// What a call makes the device do: what was asked for, and of the state the entry alone. Its replies, the medium and the new state are made from the act and the old state.
ghost use Rattle.std.specs.Prelude.{◌≡◌};
ghost use Rattle.rules.specs.Record.{record_of};

use counters::Counters;
use device_state::{Echo, Entry, ErrorRecord};
use frames::Task;

/// A device register reply with ERR.
#[derive(Clone, Copy, Debug, PartialEq, Eq)]
pub struct BadReply {
    /// the error register
    pub error: u8,
    /// the command's bytes, which the reply shows again
    pub task: Task,
}

/// An error that halts the device, and what its record will hold.
#[derive(Clone, Copy, Debug, PartialEq, Eq)]
pub struct Fault {
    /// that of the queued command at fault; `None` for any other command
    pub tag: Option<u8>,
    /// the error register
    pub error: u8,
    /// the command's bytes; after a media error with the failing sector in those of the LBA
    pub echo: Echo,
}

/// The record of a fault: with NQ, and then tag 0, for a command that was not queued.
impl From<Fault> for ErrorRecord {
    ghost from_gives = { λ fault errors. errors ≡ record_of fault };

    fn from(fault: Fault) -> ErrorRecord {
        ErrorRecord {
            set: true,
            nq: fault.tag.is_none(),
            tag: fault.tag.unwrap_or(0),
            error: fault.error,
            echo: fault.echo,
        }
    }
}

/// A queued command: accepted, or its phase to be opened.
#[derive(Clone, Copy, Debug, PartialEq, Eq)]
pub struct Queued {
    /// 0 to 31
    pub tag: u8,
    /// the command's, of which nothing has moved when it is accepted
    pub entry: Entry,
}

/// Page 11h to be sent.
#[derive(Clone, Copy, Debug, PartialEq, Eq)]
pub struct CountersRead {
    /// the counters are zeroed once the page is made
    pub zero: bool,
    /// the command's bytes, which the reply shows again
    pub task: Task,
}

/// Data that move in the open phase, from the medium or to it. The order of the fields lets an act be copied in whole words.
#[derive(Clone, Copy, Debug, PartialEq, Eq)]
pub struct Move {
    /// the first byte's place in the medium
    pub at: usize,
    /// bytes
    pub size: usize,
    /// the command's, once they have moved
    pub entry: Entry,
    /// nothing is left then, and the phase closes
    pub last: bool,
    /// that of the open phase, as wide as the state holds it
    pub tag: u32,
}

/// What is done, by the rule that holds: a call that is refused has no act.
#[derive(Clone, Copy, Debug, PartialEq, Eq)]
pub enum Act {
    /// A control frame that neither begins nor ends a reset: nothing.
    Nothing,
    /// A bad command, answered with its error.
    Bad(BadReply),
    /// A bad command, answered with its error, that halts the device.
    BadAndHalt(Fault),
    /// A queued command is answered good, and its tag is outstanding.
    Accept(Queued),
    /// Page 10h is sent, and a halt ends.
    Log10(Task),
    /// Page 11h is sent, and the counters are zeroed where that was asked for.
    Log11(CountersRead),
    /// The page of IDENTIFY DEVICE is sent.
    Identify(Task),
    /// SRST: everything outstanding is dropped, and the reset is held.
    Reset,
    /// The reset that was held is released.
    Release,
    /// BIST Activate: the counters are zeroed.
    ZeroCounters,
    /// Host data go to the medium.
    Store(Move),
    /// The data phase of an outstanding command opens.
    Open(Queued),
    /// A data frame of the open phase is sent.
    Send(Move),
    /// The commands of a set of tags are finished.
    Finish(u32),
    /// A media error is told, and halts the device.
    Media(Fault),
    /// Link events: so many more in the counter of each row.
    Count(Counters),
    /// COMRESET: as SRST and release together, and one link reset more.
    Renew,
}
