// The event program's run, from its contract alone: it is a run, and all that a run reads and plays is a history.
ghost use Rattle.std.specs.Prelude.{◌≡◌, false};
ghost use Rattle.std.specs.Io.Buffered.{reader_remaining};
ghost use Rattle.events.specs.Runs.{Ran};
ghost use Rattle.caller.specs.Program.{EachRunIsHistory};

use events::{InputEnd, RunError};
use std::io::{BufReader, Read, Write};
use streams::Watched;

/// The run of an event file.
///
/// # Errors
/// Those of `events::run`.
pub fn run<R: Read, W: Write>(
    traced: bool,
    reader: &mut Watched<BufReader<R>>,
    out: &mut Watched<W>,
) -> Result<InputEnd, RunError>
    ensures ran { reader.old.failed ≡ false → out.old.failed ≡ false → Ran traced (reader_remaining R.remaining reader.old.inner) (reader_remaining R.remaining reader.new.inner) reader.new.failed out.new.failed (W.contents out.old.inner) (W.contents out.new.inner) result }
    ensures told { EachRunIsHistory traced }
{
    events::run(traced, reader, out)
}
