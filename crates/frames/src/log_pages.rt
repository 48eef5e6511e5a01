// The log pages that the device keeps.
ghost use Rattle.std.specs.Prelude.{◌≡◌};
ghost use Rattle.frames.specs.Pages.{page_named};

/// A log page that the device keeps.
#[derive(Clone, Copy, Debug, PartialEq, Eq)]
pub enum LogPage {
    /// Page 10h: the error that a halt left.
    Errors,
    /// Page 11h: the counters of what happened on the link.
    Counters,
}

impl LogPage {
    /// The page of a number, if it is one of the two.
    pub fn from_number(number: u8) -> Option<LogPage>
        ensures { result ≡ page_named number }
    {
        match number {
            0x10 => Some(LogPage::Errors),
            0x11 => Some(LogPage::Counters),
            _ => None,
        }
    }
}
