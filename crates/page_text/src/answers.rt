// What came of a page, and the status that a program ends with for it.
ghost use Rattle.std.specs.Prelude.{◌≡◌};
ghost use Rattle.page_text.specs.Answers.{status_of};

/// How the telling of a page went.
#[derive(Clone, Copy, Debug, PartialEq, Eq)]
pub(crate) enum Answer {
    /// The page is told in full.
    Told,
    /// The page is refused: its refusal is told, and nothing else.
    Refused,
    /// The input does not tell just 512 bytes in hex: it is unread.
    NotAPage,
    /// A read failed: the page is unread.
    Stopped,
    /// The file was not opened: it is unread.
    Unopened,
}

impl Answer {
    /// The exit status of a program that has told a page so: 0 in full, 1 refused, 3 unread.
    pub(crate) fn status(self) -> u8
        ensures { result ≡ status_of self }
    {
        match self {
            Answer::Told => 0,
            Answer::Refused => 1,
            Answer::NotAPage | Answer::Stopped | Answer::Unopened => 3,
        }
    }
}
