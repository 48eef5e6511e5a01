// The line of a script that is being read, and what it prints once it ends.
ghost use Rattle.std.specs.Prelude.{◌≡◌, [], ◌++◌, OnOk, IfOk, IfErr};
ghost use Rattle.std.specs.Io.KnownBytes.{Appends};
ghost use Rattle.events.specs.declared.errors.RunError.TheVariants.{Memory};
ghost use Rattle.events.specs.Output.{Loses};
ghost use Rattle.call_scripts.specs.Lines.{asked_in, line_text, after_line, line_with};

use crate::bench::Bench;
use crate::commands::Command;
use events::RunError;
use std::alloc::{AllocError, Global};
use std::io::Write;
use streams::put;

/// The most bytes of a line: one that is longer asks for nothing that there is.
pub(crate) const LINE_LIMIT: usize = 65536;

/// What a line asks for, whatever its length.
pub(crate) fn asked_in(alloc: Global, line: &[u8]) -> Result<Option<Command>, AllocError>
    ensures { IfOk result (λ asked. asked ≡ asked_in line.now) }
{
    if LINE_LIMIT < line.len() {
        return Ok(None);
    }
    Command::parse(alloc, line)
}

/// What a line asks for is done, and what that prints stands behind the text.
#[tactic(auto, unfolding(crate::specs::Lines::line_text, crate::specs::Lines::after_line))]
pub(crate) fn answer_line(
    alloc: Global,
    bench: &mut Bench,
    line: &[u8],
    text: &mut Vec<u8>,
) -> Result<(), RunError>
    ensures bench { OnOk result (bench.new ≡ after_line bench.old line.now) }
    ensures text { OnOk result (text.new.items ≡ text.old.items ++ line_text bench.old line.now) }
    ensures err { IfErr result (λ e. e ≡ Memory) }
{
    let asked = asked_in(alloc, line).map_err(|_| RunError::Memory)?;
    match asked {
        Some(command) => bench
            .answer(alloc, text, &command)
            .map_err(|_| RunError::Memory),
        None => text
            .extend_from_slice(b"what?\n")
            .map_err(|_| RunError::Memory),
    }
}

/// A line that ends: what it prints is written, and the next line begins.
pub(crate) fn end_line<W: Write>(
    alloc: Global,
    bench: &mut Bench,
    line: &mut Vec<u8>,
    out: &mut W,
) -> Result<(), RunError>
    ensures bench { OnOk result (bench.new ≡ after_line bench.old line.old.items) }
    ensures begun { OnOk result (line.new.items ≡ []) }
    ensures ok { OnOk result (Appends (W.contents out.old) (W.contents out.new) (line_text bench.old line.old.items)) }
    ensures err { IfErr result (λ e. Loses e (W.contents out.old) (W.contents out.new) (line_text bench.old line.old.items)) }
{
    let mut text = Vec::new(alloc);
    answer_line(alloc, bench, line, &mut text)?;
    put(out, &text).map_err(RunError::Output)?;
    line.clear();
    Ok(())
}

/// One byte more of a line; of a line that is too long, what is behind the first byte too many is passed over.
#[tactic(auto, unfolding(crate::specs::Lines::line_with))]
pub(crate) fn grow(line: &mut Vec<u8>, byte: u8) -> Result<(), RunError>
    ensures ok { OnOk result (line.new.items ≡ line_with line.old.items byte) }
    ensures err { IfErr result (λ e. e ≡ Memory) }
{
    if LINE_LIMIT < line.len() {
        return Ok(());
    }
    line.push(byte).map_err(|_| RunError::Memory)
}
