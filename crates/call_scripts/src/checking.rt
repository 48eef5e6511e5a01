// A script held against what its lines are to print.
ghost use Rattle.std.specs.Prelude.{◌≡◌, ◌++◌, Some, None, IfSome, IfOk, IfErr, OnOk};
ghost use Rattle.std.specs.Io.KnownBytes.{Appends};
ghost use Rattle.events.specs.declared.errors.RunError.TheVariants.{Memory};
ghost use Rattle.events.specs.Output.{Loses};
ghost use Rattle.call_scripts.specs.Lines.{after_line};
ghost use Rattle.call_scripts.specs.Scripts.{fresh};
ghost use Rattle.call_scripts.specs.Found.{at_fault};
ghost use Rattle.call_scripts.specs.Wanted.{wanted, is_hidden};
ghost use Rattle.call_scripts.specs.Checks.{told_by, found_by, comment_told, line_told, line_check, CheckedLines, silent_told, silent_found, Checked, IsAllOf, HasChecked};

use crate::MEDIUM_SIZE;
use crate::bench::Bench;
use crate::found::Found;
use crate::lines::answer_line;
use crate::parts::parts_at;
use crate::pieces::zeros;
use crate::told::{one_line, write_difference, write_hidden, write_silent, write_unasked};
use crate::wanted::{is_hidden, trimmed, wanted};
use events::RunError;
use std::alloc::Global;
use std::io;
use std::io::{Read, Write};
use streams::put;

/// How far a check is: the number of the line that was last, and what was found until there.
#[derive(Clone, Copy)]
pub(crate) struct Check {
    number: u64,
    found: Found,
}

impl Check {
    // A line that printed a text is held against what it is to print.
    fn compare(
        &mut self,
        alloc: Global,
        name: &str,
        wanted: &[u8],
        text: &[u8],
        told: &mut Vec<u8>,
    ) -> io::Result<()>
        ensures check { OnOk result (self.new ≡ record self.old { found = found_by self.old.found (Some wanted.now) text.now }) }
        ensures told { OnOk result (told.new.items ≡ told.old.items ++ told_by name.now self.old.number (Some wanted.now) text.now) }
    {
        let printed = one_line(alloc, trimmed(text))?;
        if self.found.hold(wanted, &printed) {
            return Ok(());
        }
        write_difference(told, name, self.number, wanted, &printed)
    }

    // A line that does not say what it is to print may be no line only if it says so.
    fn pass(&mut self, name: &str, text: &[u8], told: &mut Vec<u8>) -> io::Result<()>
        ensures check { OnOk result (self.new ≡ record self.old { found = found_by self.old.found None text.now }) }
        ensures told { OnOk result (told.new.items ≡ told.old.items ++ told_by name.now self.old.number None text.now) }
    {
        if text != b"what?\n".as_slice() {
            return Ok(());
        }
        self.found.fault();
        write_unasked(told, name, self.number)
    }

    // What stands behind the `->` of a comment is held against nothing.
    fn look_behind(&mut self, name: &str, line: &[u8], told: &mut Vec<u8>) -> io::Result<()>
        ensures check { OnOk result (self.new ≡ record self.old { found = at_fault self.old.found (is_hidden line.now) }) }
        ensures told { OnOk result (told.new.items ≡ told.old.items ++ comment_told name.now self.old.number line.now) }
    {
        if !is_hidden(line) {
            return Ok(());
        }
        self.found.fault();
        write_hidden(told, name, self.number)
    }

    // What a line printed is looked at, and then its comment.
    fn look_at(
        &mut self,
        alloc: Global,
        name: &str,
        line: &[u8],
        text: &[u8],
        told: &mut Vec<u8>,
    ) -> io::Result<()>
        ensures check { OnOk result (self.new ≡ record self.old { found = at_fault (found_by self.old.found (wanted line.now) text.now) (is_hidden line.now) }) }
        ensures told { OnOk result (told.new.items ≡ told.old.items ++ (told_by name.now self.old.number (wanted line.now) text.now ++ comment_told name.now self.old.number line.now)) }
    {
        match wanted(line) {
            Some(wanted) => self.compare(alloc, name, wanted, text, told)?,
            None => self.pass(name, text, told)?,
        }
        self.look_behind(name, line, told)
    }

    // A line is run, and what it prints is looked at.
    #[tactic(auto, unfolding(crate::specs::Checks::line_told, crate::specs::Checks::line_check))]
    fn check_line(
        &mut self,
        alloc: Global,
        name: &str,
        bench: &mut Bench,
        line: &[u8],
        told: &mut Vec<u8>,
    ) -> Result<(), RunError>
        ensures bench { OnOk result (bench.new ≡ after_line bench.old line.now) }
        ensures check { OnOk result (self.new ≡ line_check bench.old self.old line.now) }
        ensures told { OnOk result (told.new.items ≡ told.old.items ++ line_told name.now bench.old self.old line.now) }
        ensures err { IfErr result (λ e. e ≡ Memory) }
    {
        let mut text = Vec::new(alloc);
        answer_line(alloc, bench, line, &mut text)?;
        self.number = self.number.saturating_add(1);
        self.look_at(alloc, name, line, &text, told)
            .map_err(|_| RunError::Memory)
    }

    // What is told of a line is written.
    fn end_line<W: Write>(
        &mut self,
        alloc: Global,
        name: &str,
        bench: &mut Bench,
        line: &[u8],
        out: &mut W,
    ) -> Result<(), RunError>
        ensures bench { OnOk result (bench.new ≡ after_line bench.old line.now) }
        ensures check { OnOk result (self.new ≡ line_check bench.old self.old line.now) }
        ensures ok { OnOk result (Appends (W.contents out.old) (W.contents out.new) (line_told name.now bench.old self.old line.now)) }
        ensures err { IfErr result (λ e. Loses e (W.contents out.old) (W.contents out.new) (line_told name.now bench.old self.old line.now)) }
    {
        let mut told = Vec::new(alloc);
        self.check_line(alloc, name, bench, line, &mut told)?;
        put(out, &told).map_err(RunError::Output)
    }
}

// The lines of a script, one after the other.
fn check_lines<W: Write>(
    alloc: Global,
    name: &str,
    bench: &mut Bench,
    script: &[u8],
    out: &mut W,
) -> Result<Found, RunError>
    ensures { CheckedLines name.now bench.old script.now (W.contents out.old) (W.contents out.new) result }
{
    let mut check = Check {
        number: 0,
        found: Found::NOTHING,
    };
    let mut rest = script;
    while !rest.is_empty() {
        let (line, behind) = parts_at(rest, b'\n');
        check.end_line(alloc, name, bench, line, out)?;
        rest = behind;
    }
    Ok(check.found)
}

// Behind its lines a script of which none says what it is to print is told as at fault.
fn end_script<W: Write>(
    alloc: Global,
    name: &str,
    out: &mut W,
    found: &mut Found,
) -> Result<(), RunError>
    ensures found { OnOk result (found.new ≡ silent_found found.old) }
    ensures ok { OnOk result (Appends (W.contents out.old) (W.contents out.new) (silent_told name.now found.old)) }
    ensures err { IfErr result (λ e. Loses e (W.contents out.old) (W.contents out.new) (silent_told name.now found.old)) }
{
    if !found.is_silent() {
        return Ok(());
    }
    found.fault();
    let mut told = Vec::new(alloc);
    write_silent(&mut told, name).map_err(|_| RunError::Memory)?;
    put(out, &told).map_err(RunError::Output)
}

// The lines of a script, and what is told behind them.
fn check_whole<W: Write>(
    alloc: Global,
    name: &str,
    bench: &mut Bench,
    script: &[u8],
    out: &mut W,
) -> Result<Found, RunError>
    ensures { Checked name.now bench.old script.now (W.contents out.old) (W.contents out.new) result }
{
    let mut found = check_lines(alloc, name, bench, script, out)?;
    end_script(alloc, name, out, &mut found)?;
    Ok(found)
}

// On a medium of so many bytes.
#[tactic(auto, unfolding(crate::specs::Scripts::fresh))]
fn check_bytes<W: Write>(
    alloc: Global,
    size: usize,
    name: &str,
    script: &[u8],
    out: &mut W,
) -> Result<Found, RunError>
    ensures { Checked name.now (fresh size) script.now (W.contents out.old) (W.contents out.new) result }
{
    let Ok(mut medium) = zeros(alloc, size) else {
        return Err(RunError::Memory);
    };
    check_whole(alloc, name, &mut Bench::new(&mut medium), script, out)
}

fn read_all<R: Read>(alloc: Global, reader: &mut R) -> io::Result<Vec<u8>>
    ensures { IfOk result (λ bytes. IfSome (R.remaining reader.old) (λ input. bytes.items ≡ input)) }
{
    let mut bytes = Vec::new(alloc);
    reader.read_to_end(&mut bytes)?;
    Ok(bytes)
}

/// Reads a script to its end, runs it from zeros on, and writes each line that prints something else than it is to or is at fault, with the
/// name of the script.
///
/// # Errors
/// A read that failed, and nothing is written then; a write, and a front is that is not all; or no memory, and it may be all.
pub(crate) fn check_script<R: Read, W: Write>(
    alloc: Global,
    name: &str,
    reader: &mut R,
    out: &mut W,
) -> Result<Found, RunError>
    ensures { HasChecked name.now (IsAllOf (R.remaining reader.old)) (W.contents out.old) (W.contents out.new) result }
{
    match read_all(alloc, reader) {
        Ok(script) => check_bytes(alloc, MEDIUM_SIZE, name, &script, out),
        Err(failed) => Err(RunError::Input(failed)),
    }
}
