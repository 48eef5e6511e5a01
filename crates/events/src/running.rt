// The run: a settings record, and then one event after the other.
ghost use Rattle.std.specs.Prelude.{◌≡◌, false};
ghost use Rattle.std.specs.Io.Buffered.{reader_remaining};
ghost use Rattle.streams.specs.Gathered.{held_back, gathering};
ghost use Rattle.events.specs.Runs.{Ran, PlayedOn, StartedWith, OneText, OneBroken};

use crate::bench::Bench;
use crate::errors::RunError;
use crate::output::{finish, pass_on};
use crate::reading::{read_ahead, read_settings, read_whole};
use crate::telling::{Line, tell};
use crate::{InputEnd, RUN_CAPACITY_LIMIT};
use device::Device;
use device_state::Settings;
use std::io::{BufReader, Read, Write};
use streams::{Lines, Watched};

// The bytes of the longest medium, as the settings record is limited.
const MEDIUM_LIMIT: usize = (RUN_CAPACITY_LIMIT as usize) * Device::SECTOR_SIZE;

// The events behind the settings record, whose line is gathered.
fn play_on<R: Read, W: Write>(
    traced: bool,
    reader: &mut Watched<BufReader<R>>,
    out: &mut Watched<W>,
    lines: &mut Lines,
    bench: &mut Bench,
) -> Result<InputEnd, RunError>
    ensures { reader.old.failed ≡ false → PlayedOn traced bench.old (gathering (W.contents out.old.inner) (held_back lines.old) out.old.failed) (reader_remaining R.remaining reader.old.inner) (reader_remaining R.remaining reader.new.inner) reader.new.failed out.new.failed (W.contents out.new.inner) result }
{
    for number in 1..u64::MAX {
        lines.pass_much_on(out);
        if out.has_failed() {
            return Err(RunError::Output(lines.error()));
        }
        let event = match read_ahead(reader) {
            Some(event) => event,
            None => {
                pass_on(reader, out, lines);
                if out.has_failed() {
                    return Err(RunError::Output(lines.error()));
                }
                match read_whole(reader) {
                    Ok(Ok(event)) => event,
                    Ok(Err(end)) => return finish(out, lines, Ok(end)),
                    Err(failed) => return finish(out, lines, Err(RunError::Input(failed))),
                }
            }
        };
        bench.play_and_tell(traced, lines, out, number, &event);
    }
    finish(out, lines, Err(RunError::TooMany))
}

// What follows the settings record.
fn start_with<R: Read, W: Write>(
    traced: bool,
    reader: &mut Watched<BufReader<R>>,
    out: &mut Watched<W>,
    lines: &mut Lines,
    settings: Settings,
) -> Result<InputEnd, RunError>
    ensures { reader.old.failed ≡ false → StartedWith traced settings (gathering (W.contents out.old.inner) (held_back lines.old) out.old.failed) (reader_remaining R.remaining reader.old.inner) (reader_remaining R.remaining reader.new.inner) reader.new.failed out.new.failed (W.contents out.new.inner) result }
{
    let begun = crate::start(settings);
    let line = Line {
        number: 0,
        refusal: begun.as_ref().err().copied(),
        outstanding: 0,
        replies: &[],
    };
    tell(traced, lines, out, &line);
    let Ok(sealed) = begun else {
        return finish(out, lines, Ok(InputEnd::Refused));
    };
    let mut medium = [0u8; MEDIUM_LIMIT];
    let size = sealed.state().settings.medium_size();
    let mut reply = [0u8; Device::REPLY_SIZE];
    let mut bench = Bench::new(sealed, &mut medium[..size], &mut reply);
    play_on(traced, reader, out, lines, &mut bench)
}

/// Runs an event file: a line for each event, and `stop` where the input ends in no event. Of a reader or a writer that had failed
/// before nothing is promised.
///
/// # Errors
/// `Output` exactly where a write failed: lines are missing. `Input` where a read failed and no write did, and `TooMany` where the
/// line numbers are used up: `stop` is written then.
pub fn run<R: Read, W: Write>(
    traced: bool,
    reader: &mut Watched<BufReader<R>>,
    out: &mut Watched<W>,
) -> Result<InputEnd, RunError>
    ensures { reader.old.failed ≡ false → out.old.failed ≡ false → Ran traced (reader_remaining R.remaining reader.old.inner) (reader_remaining R.remaining reader.new.inner) reader.new.failed out.new.failed (W.contents out.old.inner) (W.contents out.new.inner) result }
{
    let mut lines = Lines::new();
    match read_settings(reader) {
        Ok(Some(settings)) => start_with(traced, reader, out, &mut lines, settings),
        Ok(None) => finish(out, &mut lines, Ok(InputEnd::NoEvent)),
        Err(failed) => finish(out, &mut lines, Err(RunError::Input(failed))),
    }
}

/// An input is events and a rest in one way, and two outputs that one ending allows for the same bytes read are equal.
pub fn a_run_has_one_text()
    ensures over { OneText }
    ensures broken { OneBroken }
{}
