// All scripts that are named, one after the other.
ghost use Rattle.std.specs.Prelude.{[], map, IfErr, OnOk};
ghost use Rattle.std.specs.Io.KnownBytes.{Appends};
ghost use Rattle.call_scripts.specs.Found.{last_line};
ghost use Rattle.call_scripts.specs.CheckEnds.{LosesAll, HasLookedAt, HasWritten, HasCheckedAll};

use crate::check_ends::{CheckEnd, say_all};
use crate::files::check_named;
use crate::found::Found;
use events::RunError;
use page_text::Shelf;
use std::alloc::Global;
use std::io::Write;
use streams::put;

// In the order of their names, as far as what is told can be written.
fn check_each<S: Shelf, W: Write>(
    alloc: Global,
    shelf: &S,
    names: &[&str],
    out: &mut W,
    said: &mut Vec<u8>,
) -> Result<Found, RunError>
    ensures { HasLookedAt (S.holds shelf.now) (map (λ name. name.now) names.now) (W.contents out.old) (W.contents out.new) said.old.items said.new.items result }
{
    let mut all = Found::NOTHING;
    for name in names {
        all.add(check_named(alloc, shelf, name, out, said)?);
    }
    Ok(all)
}

// The last line.
fn end<W: Write>(alloc: Global, out: &mut W, found: Found) -> Result<(), RunError>
    ensures ok { OnOk result (Appends (W.contents out.old) (W.contents out.new) (last_line found)) }
    ensures err { IfErr result (λ e. LosesAll e (W.contents out.old) (W.contents out.new) [] (last_line found)) }
{
    let mut last = Vec::new(alloc);
    found.write_last(&mut last).map_err(|_| RunError::Memory)?;
    put(out, &last).map_err(RunError::Output)
}

// And behind them the last line.
fn check_all<S: Shelf, W: Write>(
    alloc: Global,
    shelf: &S,
    names: &[&str],
    out: &mut W,
    said: &mut Vec<u8>,
) -> Result<Found, RunError>
    ensures { HasWritten (S.holds shelf.now) (map (λ name. name.now) names.now) (W.contents out.old) (W.contents out.new) said.old.items said.new.items result }
{
    let found = check_each(alloc, shelf, names, out, said)?;
    end(alloc, out, found)?;
    Ok(found)
}

/// Runs each named script of a shelf from zeros on, in the order given, and writes to `out` each line that prints something else than it is
/// to or is at fault, and at last how many there are. What cannot be opened or read, and that lines are missing, is said on `errors`.
pub fn check_scripts<S: Shelf, W: Write, E: Write>(
    alloc: Global,
    shelf: &S,
    names: &[&str],
    out: &mut W,
    errors: &mut E,
) -> CheckEnd
    ensures { HasCheckedAll (S.holds shelf.now) (map (λ name. name.now) names.now) (W.contents out.old) (W.contents out.new) (E.contents errors.old) (E.contents errors.new) result }
{
    let mut said = Vec::new(alloc);
    let run = check_all(alloc, shelf, names, out, &mut said);
    let said = say_all(errors, &said, &run);
    CheckEnd { run, said }
}
