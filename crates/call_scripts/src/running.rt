// The run of a script, byte for byte.
ghost use Rattle.std.specs.Prelude.{◌≡◌, IfErr, OnOk};
ghost use Rattle.std.specs.Io.KnownBytes.{Appends};
ghost use Rattle.events.specs.Output.{Loses};
ghost use Rattle.call_scripts.specs.Scripts.{byte_text, byte_bench, byte_line, Finishes, Stops, Ran, OneText, OneBroken};
ghost use Rattle.call_scripts.specs.Checks.{OneFound};
ghost use Rattle.call_scripts.specs.CheckEnds.{OneCheck};

use crate::bench::Bench;
use crate::lines::{end_line, grow};
use events::RunError;
use std::alloc::Global;
use std::io::{Read, Write};
use streams::{put, read_byte};

// A byte behind a line so far: LF ends it.
fn take_byte<W: Write>(
    alloc: Global,
    bench: &mut Bench,
    line: &mut Vec<u8>,
    out: &mut W,
    byte: u8,
) -> Result<(), RunError>
    ensures bench { OnOk result (bench.new ≡ byte_bench bench.old line.old.items byte) }
    ensures line { OnOk result (line.new.items ≡ byte_line line.old.items byte) }
    ensures text { OnOk result (Appends (W.contents out.old) (W.contents out.new) (byte_text bench.old line.old.items byte)) }
    ensures err { IfErr result (λ e. Loses e (W.contents out.old) (W.contents out.new) (byte_text bench.old line.old.items byte)) }
{
    if byte == b'\n' {
        return end_line(alloc, bench, line, out);
    }
    grow(line, byte)
}

// A last line that does not end in LF, if it has a byte.
#[tactic(auto, unfolding(crate::specs::Scripts::ended))]
fn finish<W: Write>(
    alloc: Global,
    bench: &mut Bench,
    line: &mut Vec<u8>,
    out: &mut W,
) -> Result<(), RunError>
    ensures { Finishes bench.old line.old.items (W.contents out.old) (W.contents out.new) result }
{
    if line.is_empty() {
        return Ok(());
    }
    end_line(alloc, bench, line, out)
}

// `stop` is the last line, and the run ends so.
fn stop<W: Write>(out: &mut W, end: RunError) -> Result<(), RunError>
    ensures { Stops end (W.contents out.old) (W.contents out.new) result }
{
    match put(out, b"stop\n") {
        Ok(()) => Err(end),
        Err(failed) => Err(RunError::Output(failed)),
    }
}

/// Runs a script on a bench: what each line prints, and `stop` where a read fails. A line of more than 65,536 bytes is passed
/// over as one that asks for nothing that there is; a last line need not end in LF.
///
/// # Errors
/// How it ended before the input did.
pub(crate) fn run<R: Read, W: Write>(
    alloc: Global,
    bench: &mut Bench,
    reader: &mut R,
    out: &mut W,
) -> Result<(), RunError>
    ensures { Ran bench.old (R.remaining reader.old) (R.remaining reader.new) (W.contents out.old) (W.contents out.new) result }
{
    let mut line = Vec::new(alloc);
    for _ in 0..u64::MAX {
        match read_byte(reader) {
            Ok(Some(byte)) => take_byte(alloc, bench, &mut line, out, byte)?,
            Ok(None) => return finish(alloc, bench, &mut line, out),
            Err(failed) => return stop(out, RunError::Input(failed)),
        }
    }
    stop(out, RunError::TooMany)
}

/// Of a script two outputs that one ending allows for the same bytes read are equal, and so is what two checks of it, or of several scripts,
/// write and find.
pub fn a_script_has_one_text()
    ensures over { OneText }
    ensures broken { OneBroken }
    ensures checked { OneFound }
    ensures all_checked { OneCheck }
{}
