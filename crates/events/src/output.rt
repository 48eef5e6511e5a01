// When lines are written, and the last ones.
ghost use Rattle.std.specs.Prelude.{◌≡◌, []};
ghost use Rattle.std.specs.Io.Buffered.{reader_buffer};
ghost use Rattle.streams.specs.Gathered.{held_back, gathering, Pushes};
ghost use Rattle.events.specs.Reading.{MayWait};
ghost use Rattle.events.specs.Ends.{Finished};

use crate::InputEnd;
use crate::errors::{RunError, last_text};
use crate::reading::lies_there;
use std::io::{BufReader, Read, Write};
use streams::{Lines, Watched};

/// Lines are written before the next event is read where not all of it lies in the reader's buffer: that read may have to wait, and
/// whoever waits for the events that come has every line of those that came.
pub(crate) fn pass_on<R: Read, W: Write>(
    reader: &Watched<BufReader<R>>,
    out: &mut Watched<W>,
    lines: &mut Lines,
)
    ensures pushed { Pushes (gathering (W.contents out.old.inner) (held_back lines.old) out.old.failed) (gathering (W.contents out.new.inner) (held_back lines.new) out.new.failed) [] }
    ensures prompt { MayWait (reader_buffer reader.now.inner) → held_back lines.new ≡ [] }
{
    if !lies_there(reader.buffer()) {
        lines.pass_on(out);
    }
}

/// The lines that are left, and the last text; and then the run has the result of its end.
pub(crate) fn finish<W: Write>(
    out: &mut Watched<W>,
    lines: &mut Lines,
    end: Result<InputEnd, RunError>,
) -> Result<InputEnd, RunError>
    ensures { Finished end (gathering (W.contents out.old.inner) (held_back lines.old) out.old.failed) (W.contents out.new.inner) out.new.failed result }
{
    lines.push(out, last_text(&end));
    lines.pass_on(out);
    if out.has_failed() {
        return Err(RunError::Output(lines.error()));
    }
    end
}
