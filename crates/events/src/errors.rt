// How a run ends.
ghost use Rattle.std.specs.Prelude.{◌≡◌};
ghost use Rattle.events.specs.Ends.{last_text, error_status};
ghost use Rattle.events.specs.declared.errors.RunError.TheVariants.{Memory};

use crate::InputEnd;
use std::alloc::AllocError;
use std::io;
use thiserror::Error;

/// Why a run ended before its input did. Its text tells the cause, and where lines are missing it says so.
#[derive(Debug, Drop, Error)]
pub enum RunError {
    /// A read failed: the lines of the whole events before it are written, and `stop`.
    #[error("input failed: {0}")]
    Input(io::Error),
    /// A write failed: lines are missing.
    #[error("output failed, lines are missing: {0}")]
    Output(io::Error),
    /// No memory for a line: lines are missing.
    #[error("no memory for a line: lines are missing")]
    Memory,
    /// The last line number is used up.
    #[error("too many events")]
    TooMany,
}

impl RunError {
    /// The exit status of a program whose run ended so: 4 where lines are missing, else 3.
    pub fn exit_status(&self) -> u8
        ensures { result ≡ error_status self.now }
    {
        match self {
            RunError::Output(_) | RunError::Memory => 4,
            RunError::Input(_) | RunError::TooMany => 3,
        }
    }
}

/// No memory is had for lines alone.
impl From<AllocError> for RunError {
    ghost from_gives = { λ failed error. error ≡ Memory };

    fn from(_: AllocError) -> RunError {
        RunError::Memory
    }
}

/// The last text of a run that ends so.
#[tactic(auto, unfolding(crate::specs::Running::ending))]
pub(crate) fn last_text(end: &Result<InputEnd, RunError>) -> &'static [u8]
    ensures { result.now ≡ last_text end.now }
{
    match end {
        Ok(InputEnd::Clean | InputEnd::Refused) => b"",
        Ok(InputEnd::NoEvent) | Err(_) => b"stop\n",
    }
}
