// What is under way.
ghost use Rattle.std.specs.Prelude.{◌≡◌, true, false};
ghost use Rattle.device_state.specs.UnderWay.{none_under_way, link_busy, with_tag, without_tags};
ghost use Rattle.bits.specs.Bit.{bit_in};

use crate::shapes::Status;

impl Status {
    /// After power-on and COMRESET.
    pub fn idle() -> Status
        ensures { result ≡ none_under_way false false }
    {
        Status::default()
    }

    /// After an error.
    pub fn halted() -> Status
        ensures { result ≡ none_under_way true false }
    {
        Status {
            halted: true,
            ..Status::default()
        }
    }

    /// After SRST, until the release.
    pub fn held() -> Status
        ensures { result ≡ none_under_way false true }
    {
        Status {
            held: true,
            ..Status::default()
        }
    }

    /// A phase is open on the link: no command, BIST, open or finish then.
    pub fn is_link_busy(self) -> bool
        ensures { result ≡ link_busy self }
    {
        self.phase.is_some()
    }

    /// A tag's command is outstanding; that of a tag of 32 or more never is.
    pub fn is_outstanding(self, tag: u32) -> bool
        ensures { result ≡ bit_in 32 self.outstanding tag }
    {
        bits::bit(self.outstanding, tag)
    }

    /// A command of a tag is accepted; of a tag of 32 or more, none.
    pub fn with_tag(self, tag: u32) -> Status
        ensures { result ≡ with_tag self tag }
    {
        Status {
            outstanding: bits::with_bit(self.outstanding, tag),
            ..self
        }
    }

    /// The commands of a set of tags are finished.
    pub fn without_tags(self, set: u32) -> Status
        ensures { result ≡ without_tags self set }
    {
        Status {
            outstanding: self.outstanding & !set,
            ..self
        }
    }
}
