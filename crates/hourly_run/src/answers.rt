// What came of a question, and what is told of it.
ghost use Rattle.std.specs.Prelude.{◌≡◌};
ghost use Rattle.hourly_run.specs.Owed.{status_of};

/// How the telling of a table went.
#[derive(Clone, Copy, Debug, PartialEq, Eq)]
pub(crate) enum Answer {
    /// The table is printed.
    Told,
    /// It is refused: the refusal is printed, and what is to blame is said on standard error.
    Refused,
    /// A word is no number of a counter: it is said on standard error, and nothing is printed.
    Misasked,
    /// A line tells no sample: it is said on standard error.
    Malformed,
    /// A read of the file failed.
    Stopped,
    /// The file was not opened.
    Unopened,
}

impl Answer {
    /// The exit status of a program that has told it so: 0 a table, 1 refused, 2 misasked, 3 malformed or unread.
    pub(crate) fn status(self) -> u8
        ensures { result ≡ status_of self }
    {
        match self {
            Answer::Told => 0,
            Answer::Refused => 1,
            Answer::Misasked => 2,
            Answer::Malformed | Answer::Stopped | Answer::Unopened => 3,
        }
    }
}

/// An answer, with what is printed of it and what is said on standard error.
#[derive(Debug, Drop)]
pub(crate) struct Telling {
    pub(crate) answer: Answer,
    pub(crate) text: Vec<u8>,
    pub(crate) said: Vec<u8>,
}
