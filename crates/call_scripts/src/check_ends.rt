// How a check of scripts ended, whether what there was to say could be said, and the status that a program ends with.
ghost use Rattle.std.specs.Prelude.{◌≡◌, ◌++◌};
ghost use Rattle.events.specs.Runs.{Said};
ghost use Rattle.call_scripts.specs.CheckEnds.{none_asked, said_last, exit_status_of};

use crate::found::Found;
use events::RunError;
use std::io;
use std::io::Write;
use streams::{complain, put};

/// How a check of scripts ended, and whether what there was to say of it could be said.
#[derive(Debug, Drop)]
pub struct CheckEnd {
    /// what was found; an error where lines are missing
    pub run: Result<Found, RunError>,
    /// an error where something was to be said and could not be, or not all of it
    pub said: io::Result<()>,
}

// The exit status where lines are missing.
const LINES_MISSING: u8 = 4;

impl CheckEnd {
    /// The exit status of a program whose check ended so: 0 all lines print what they are to, 1 one does not or is at fault, 2 none says what
    /// it is to print, 3 a script is unread, 4 lines are missing; the greatest that holds.
    pub fn exit_status(&self) -> u8
        ensures { result ≡ exit_status_of self.now.run }
    {
        match &self.run {
            Ok(found) => found.status(),
            Err(_) => LINES_MISSING,
        }
    }
}

// No line of any script says what it is to print.
fn say_none_asked<E: Write>(errors: &mut E) -> io::Result<()>
    ensures { Said none_asked (E.contents errors.old) (E.contents errors.new) result }
{
    put(errors, b"run_calls: no line says what it is to print\n")
}

// What is said last.
fn say_last<E: Write>(errors: &mut E, run: &Result<Found, RunError>) -> io::Result<()>
    ensures { Said (said_last run.now) (E.contents errors.old) (E.contents errors.new) result }
{
    match run {
        Ok(found) if found.status() == 2 => say_none_asked(errors),
        Ok(_) => Ok(()),
        Err(_) => complain(errors),
    }
}

/// What is to be said of the scripts, and then of the whole check.
///
/// # Errors
/// Those of [`put`]: a front is said then, and not all of it.
pub(crate) fn say_all<E: Write>(
    errors: &mut E,
    said: &[u8],
    run: &Result<Found, RunError>,
) -> io::Result<()>
    ensures { Said (said.now ++ said_last run.now) (E.contents errors.old) (E.contents errors.new) result }
{
    put(errors, said)?;
    say_last(errors, run)
}
