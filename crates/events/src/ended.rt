// How a run ended, whether that could be said, and the status that a program ends with.
ghost use Rattle.std.specs.Prelude.{◌≡◌};
ghost use Rattle.events.specs.Runs.{Said, said_of, exit_status_of};

use crate::errors::RunError;
use std::io;
use std::io::Write;
use streams::complain;

/// How a run ended, and whether what there was to say of it could be said.
#[derive(Debug, Drop)]
pub struct Ended {
    /// how it ended
    pub run: Result<(), RunError>,
    /// an error where lines are missing and that could not be said, or not all of it
    pub said: io::Result<()>,
}

impl Ended {
    /// The exit status of a program whose scripts ended so: 0 where the input ended, 3 where a read failed or the lines are too many,
    /// 4 where lines are missing.
    pub fn exit_status(&self) -> u8
        ensures { result ≡ exit_status_of self.now.run }
    {
        match &self.run {
            Ok(()) => 0,
            Err(error) => error.exit_status(),
        }
    }
}

/// Where lines are missing, that is said.
///
/// # Errors
/// Those of [`complain`]: a front of the sentence is written then, and not all of it.
pub fn say<E: Write>(run: &Result<(), RunError>, errors: &mut E) -> io::Result<()>
    ensures { Said (said_of run.now) (E.contents errors.old) (E.contents errors.new) result }
{
    match run {
        Err(RunError::Output(_) | RunError::Memory) => complain(errors),
        Ok(()) | Err(RunError::Input(_) | RunError::TooMany) => Ok(()),
    }
}
