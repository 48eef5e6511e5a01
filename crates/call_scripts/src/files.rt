// A script of a shelf: run and compared, or told as unread.
ghost use Rattle.std.specs.Prelude.{◌≡◌, ◌++◌, List, ℕ, IfOk, IfErr, OnOk, OnErr};
ghost use Rattle.std.specs.Io.KnownBytes.{Appends};
ghost use Rattle.events.specs.declared.errors.RunError.TheVariants.{Memory};
ghost use Rattle.call_scripts.specs.Checks.{HasChecked};
ghost use Rattle.call_scripts.specs.Named.{MayHold, cause_text, unread_text};
ghost use Rattle.call_scripts.specs.CheckEnds.{HasCome, LosesOne};

use crate::checking::check_script;
use crate::found::Found;
use crate::told::write_labelled;
use events::RunError;
use page_text::Shelf;
use std::alloc::Global;
use std::io;
use std::io::Write;

#[tactic(auto, unfolding(crate::specs::Named::cause_text))]
fn write_cause<W: Write>(out: &mut W, program: &[u8], name: &str, why: &str) -> io::Result<()>
    ensures { OnOk result (Appends (W.contents out.old) (W.contents out.new) (cause_text program.now name.now why.now)) }
{
    out.write_all(program)?;
    out.write_all(name.as_bytes())?;
    write_labelled(out, b": input failed: ", why.as_bytes())
}

fn write_unread<W: Write>(out: &mut W, name: &str, why: &str) -> io::Result<()>
    ensures { OnOk result (Appends (W.contents out.old) (W.contents out.new) (unread_text name.now why.now)) }
{
    write_cause(out, b"run_calls: ", name, why)
}

// The line of a script that is unread stands behind what is said; or there is no memory for it.
fn push_unread(
    alloc: Global,
    said: &mut Vec<u8>,
    name: &str,
    failed: &io::Error,
) -> Result<(), RunError>
    ensures ok { OnOk result ((why : List ℕ) × (said.new.items ≡ said.old.items ++ unread_text name.now why)) }
    ensures kept { OnErr result (said.new.items ≡ said.old.items) }
    ensures err { IfErr result (λ e. e ≡ Memory) }
{
    let why = failed.to_string(alloc)?;
    let mut line = Vec::new(alloc);
    write_unread(&mut line, name, &why).map_err(|_| RunError::Memory)?;
    said.extend_from_slice(&line)?;
    Ok(())
}

// A script is opened, read and checked.
fn check_file<S: Shelf, W: Write>(
    alloc: Global,
    shelf: &S,
    name: &str,
    out: &mut W,
) -> Result<Found, RunError>
    ensures { HasChecked name.now (MayHold (S.holds shelf.now name.now)) (W.contents out.old) (W.contents out.new) result }
{
    match shelf.open(name) {
        Ok(mut script) => check_script(alloc, name, &mut script, out),
        Err(failed) => Err(RunError::Input(failed)),
    }
}

/// A named script: what is found in it. Where it is unread, that is said, and the check may go on.
///
/// # Errors
/// Lines are missing.
pub(crate) fn check_named<S: Shelf, W: Write>(
    alloc: Global,
    shelf: &S,
    name: &str,
    out: &mut W,
    said: &mut Vec<u8>,
) -> Result<Found, RunError>
    ensures ok { IfOk result (λ found. HasCome (S.holds shelf.now name.now) name.now (W.contents out.old) (W.contents out.new) said.old.items said.new.items found) }
    ensures kept { OnErr result (said.new.items ≡ said.old.items) }
    ensures err { IfErr result (λ e. LosesOne (S.holds shelf.now name.now) name.now e (W.contents out.old) (W.contents out.new)) }
{
    match check_file(alloc, shelf, name, out) {
        Ok(found) => Ok(found),
        Err(RunError::Input(failed)) => {
            push_unread(alloc, said, name, &failed)?;
            Ok(Found::UNREAD)
        }
        Err(lost) => Err(lost),
    }
}
