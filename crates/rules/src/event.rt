// The device events: what the device is asked for beside the host's frames.
ghost use Rattle.std.specs.Prelude.{◌≡◌};
ghost use Rattle.rules.specs.Call.{happens};
ghost use Rattle.rules.specs.Handed.{handed};

use counters::ROWS;

/// A device event, with its arguments.
#[derive(Clone, Copy, Debug, PartialEq, Eq)]
pub enum DeviceEvent {
    /// Open a phase for a tag.
    OpenPhase(u8),
    /// Send the next data frame.
    SendData,
    /// Finish a set of tags, bit t for tag t.
    FinishTags(u32),
    /// A command fails at a sector.
    MediaError {
        /// The tag of the command.
        tag: u8,
        /// Its error byte; the device refuses 0.
        error: u8,
        /// The sector that it fails at, counted from the medium's first.
        sector: u32,
    },
    /// One more in the counter of a row of page 11h.
    LinkEvent(u8),
    /// So many more in the counter of each row: what as many link events do.
    LinkTally([u32; ROWS]),
    /// COMRESET.
    Comreset,
}

impl DeviceEvent {
    /// The tag whose entry it is about, if it is about one: its own, or that of the open phase, which is handed in.
    pub fn tag_meant(self, phase: Option<u32>) -> Option<u32>
        ensures { result ≡ (handed (happens self)).tag phase }
    {
        match self {
            DeviceEvent::OpenPhase(tag) | DeviceEvent::MediaError { tag, .. } => {
                Some(u32::from(tag))
            }
            DeviceEvent::SendData => phase,
            DeviceEvent::FinishTags(_)
            | DeviceEvent::LinkEvent(_)
            | DeviceEvent::LinkTally(_)
            | DeviceEvent::Comreset => None,
        }
    }
}
