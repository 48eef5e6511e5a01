// Kinds of events behind the settings record, and the lengths of their bodies.
ghost use Rattle.std.specs.Prelude.{◌≡◌};
ghost use Rattle.events.specs.Kinds.{kind_named, body_of};

/// The most bytes of an event, its kind among them.
pub const EVENT_LIMIT: usize = 20;

/// How a run ends where nothing fails.
#[derive(Clone, Copy, Debug, PartialEq, Eq)]
pub enum InputEnd {
    /// With the input, behind an event: all of it is played.
    Clean,
    /// With what is no event, or with no settings: `stop`.
    NoEvent,
    /// With refused settings, behind their line.
    Refused,
}

/// The kinds of events behind the settings record.
#[derive(Clone, Copy, Debug, PartialEq, Eq)]
pub enum Kind {
    /// 01h: the device opens a phase.
    OpenPhase,
    /// 02h: it sends the next data frame.
    SendData,
    /// 03h: it finishes commands.
    FinishTags,
    /// 04h: a command fails at one of its sectors.
    MediaError,
    /// 05h: one more in a row's counter.
    LinkEvent,
    /// 06h: COMRESET.
    Comreset,
    /// 07h: host data, all of one byte.
    HostData,
    /// 27h: a frame from the host, a command or control.
    HostRegister,
    /// 58h: a frame from the host, a test of the link.
    Bist,
}

impl Kind {
    /// The kind that a byte names, if it names one. 00h names none: settings come before events.
    #[inline(always)]
    #[tactic(auto, unfolding(crate::specs::Kinds::kind_named))]
    pub fn from_byte(byte: u8) -> Option<Kind>
        ensures { result ≡ kind_named byte }
    {
        match byte {
            0x01 => Some(Kind::OpenPhase),
            0x02 => Some(Kind::SendData),
            0x03 => Some(Kind::FinishTags),
            0x04 => Some(Kind::MediaError),
            0x05 => Some(Kind::LinkEvent),
            0x06 => Some(Kind::Comreset),
            0x07 => Some(Kind::HostData),
            0x27 => Some(Kind::HostRegister),
            0x58 => Some(Kind::Bist),
            // 46h is none: the length of host data is what is due
            _ => None,
        }
    }

    /// The length of the kind's body: the bytes of an event behind its first.
    #[inline(always)]
    #[tactic(auto, unfolding(crate::specs::Kinds::body_of))]
    pub fn body_length(self) -> usize
        ensures { result ≡ body_of self }
    {
        match self {
            Kind::OpenPhase | Kind::LinkEvent | Kind::HostData => 1,
            Kind::SendData | Kind::Comreset => 0,
            Kind::FinishTags => 4,
            Kind::MediaError => 6,
            Kind::HostRegister => 19,
            Kind::Bist => 11,
        }
    }
}
