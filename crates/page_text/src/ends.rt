// How a run ends.
ghost use Rattle.std.specs.Prelude.{◌≡◌};
ghost use Rattle.page_text.specs.Runs.{SaysMissing, exit_status_of};

use std::io::Write;
use streams::complain;

/// Lines are missing: not all could be written.
#[derive(Clone, Copy, Debug, PartialEq, Eq)]
pub enum Lost {
    /// and that was said on standard error
    Aloud,
    /// and that could not be said either
    Unsaid,
}

impl Lost {
    /// Says on `errors` that lines are missing, or a front of that where it cannot be written.
    pub fn said_on<E: Write>(errors: &mut E) -> Lost
        ensures { SaysMissing (E.contents errors.old) (E.contents errors.new) result }
    {
        match complain(errors) {
            Ok(()) => Lost::Aloud,
            Err(_) => Lost::Unsaid,
        }
    }
}

// The exit status where lines are missing.
const LINES_MISSING: u8 = 4;

/// The exit status of a run: 0 all pages told in full, 1 one was refused, 3 one is unread, 4 lines are missing; the greatest
/// of those that hold.
pub fn exit_status(ended: Result<u8, Lost>) -> u8
    ensures { result ≡ exit_status_of ended }
{
    ended.unwrap_or(LINES_MISSING)
}
