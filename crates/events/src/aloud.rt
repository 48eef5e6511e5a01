// A run of which it is said aloud where lines are missing, and the status that a program ends with behind it.
ghost use Rattle.std.specs.Prelude.{◌≡◌, false};
ghost use Rattle.std.specs.Io.Buffered.{reader_remaining};
ghost use Rattle.events.specs.Runs.{Ran, SaidBy, said_of, run_status};

use crate::InputEnd;
use crate::errors::RunError;
use crate::running::run;
use std::io::{BufReader, Read, Write};
use streams::Watched;

/// So many bytes the programs read at once.
pub const PIECE: usize = 65536;

// Where lines are missing, that is said. Whether it could be, `errors` keeps in mind.
fn say<E: Write>(run: &Result<InputEnd, RunError>, errors: &mut Watched<E>)
    ensures { errors.old.failed ≡ false → SaidBy errors.new.failed (said_of run.now) (E.contents errors.old.inner) (E.contents errors.new.inner) }
{
    match run {
        Err(RunError::Output(_) | RunError::Memory) => {
            let _ = errors.complain();
        }
        Ok(_) | Err(RunError::Input(_) | RunError::TooMany) => {}
    }
}

/// Runs an event file, and says on `errors` where lines are missing.
///
/// # Errors
/// Those of [`run`].
pub fn run_aloud<R: Read, W: Write, E: Write>(
    traced: bool,
    reader: &mut Watched<BufReader<R>>,
    out: &mut Watched<W>,
    errors: &mut Watched<E>,
) -> Result<InputEnd, RunError>
    ensures ran { reader.old.failed ≡ false → out.old.failed ≡ false → Ran traced (reader_remaining R.remaining reader.old.inner) (reader_remaining R.remaining reader.new.inner) reader.new.failed out.new.failed (W.contents out.old.inner) (W.contents out.new.inner) result }
    ensures said { errors.old.failed ≡ false → SaidBy errors.new.failed (said_of result) (E.contents errors.old.inner) (E.contents errors.new.inner) }
{
    let ended = run(traced, reader, out);
    say(&ended, errors);
    ended
}

/// The exit status of a program whose run ended so: 0 where all was played, 1 behind the `stop` of an input that ended in no event
/// and behind refused settings, and else that of the error.
pub fn exit_status(run: &Result<InputEnd, RunError>) -> u8
    ensures { result ≡ run_status run.now }
{
    match run {
        Ok(InputEnd::Clean) => 0,
        Ok(InputEnd::NoEvent | InputEnd::Refused) => 1,
        Err(error) => error.exit_status(),
    }
}
