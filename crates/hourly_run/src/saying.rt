// What is said on standard error, put together piece by piece.
ghost use Rattle.std.specs.Prelude.{◌≡◌, ◌++◌, ℕ, List, OnOk, IfOk, decimal, flat_map, take};
ghost use Rattle.std.specs.Char.Escape.{escape_ascii};
ghost use Rattle.hourly_run.specs.Kept.{entry_told};
ghost use Rattle.hourly_run.specs.Pages.{shelved};
ghost use Rattle.hourly_run.specs.Said.{page_named, hour_named, line_said, file_said, counter_said};
ghost use Rattle.hourly_run.specs.Shown.{shown};

use page_text::Shelf;
use std::alloc::{AllocError, Global};
use std::io;

/// Of a longer name no more bytes are said.
const NAME_LIMIT: usize = 255;

// A byte that prints as it is, and any other by its escape.
fn push_escaped(text: &mut Vec<u8>, byte: u8) -> Result<(), AllocError>
    ensures { OnOk result (text.new.items ≡ text.old.items ++ escape_ascii byte) }
{
    for c in byte.escape_ascii() {
        text.push(c)?;
    }
    Ok(())
}

fn push_all_escaped(text: &mut Vec<u8>, bytes: &[u8]) -> Result<(), AllocError>
    ensures { OnOk result (text.new.items ≡ text.old.items ++ flat_map escape_ascii bytes.now) }
{
    for &byte in bytes {
        push_escaped(text, byte)?;
    }
    Ok(())
}

// As much of a name as is said.
fn front_of(name: &[u8]) -> &[u8]
    ensures { result.now ≡ take 255 name.now }
{
    &name[..name.len().min(NAME_LIMIT)]
}

/// A name, of which nothing that a terminal takes for a command is left.
#[tactic(auto, unfolding(crate::specs::Shown::shown))]
pub(crate) fn push_shown(text: &mut Vec<u8>, name: &[u8]) -> Result<(), AllocError>
    ensures { OnOk result (text.new.items ≡ text.old.items ++ shown name.now) }
{
    push_all_escaped(text, front_of(name))?;
    if NAME_LIMIT < name.len() {
        text.extend_from_slice(b"..")?;
    }
    Ok(())
}

pub(crate) fn push_number(text: &mut Vec<u8>, number: u64) -> Result<(), AllocError>
    ensures { OnOk result (text.new.items ≡ text.old.items ++ decimal number) }
{
    text.extend_from_slice(itoa::Buffer::new().format(number).as_bytes())
}

/// What went wrong, with the reason that the system gives.
pub(crate) fn failure(alloc: Global, what: &[u8], error: io::Error) -> Result<Vec<u8>, AllocError>
    ensures { IfOk result (λ why. (reason : List ℕ) × (why.items ≡ what.now ++ shown reason)) }
{
    let mut why = Vec::from_slice(alloc, what)?;
    push_shown(&mut why, format!(in alloc; "{error}")?.as_bytes())?;
    Ok(why)
}

// The name of the page's file, where pages stand in files.
fn push_page<S: Shelf>(text: &mut Vec<u8>, shelf: Option<&S>, name: &[u8]) -> Result<(), AllocError>
    ensures { OnOk result (text.new.items ≡ text.old.items ++ page_named (shelved S.holds shelf.entry) name.now) }
{
    if shelf.is_none() {
        return Ok(());
    }
    text.extend_from_slice(b", page ")?;
    push_shown(text, name)
}

// The hour of a line that has one.
fn push_hour<S: Shelf>(
    text: &mut Vec<u8>,
    shelf: Option<&S>,
    entry: Result<(u64, &[u8]), &[u8]>,
) -> Result<(), AllocError>
    ensures { OnOk result (text.new.items ≡ text.old.items ++ hour_named (shelved S.holds shelf.entry) (entry_told entry.entry)) }
{
    let Ok((hour, behind)) = entry else {
        return Ok(());
    };
    text.extend_from_slice(b", hour ")?;
    push_number(text, hour)?;
    push_page(text, shelf, behind)
}

/// What is said of a line: its number, its hour and the name of its page's file, as far as it has them, and what is wrong.
pub(crate) fn line_said<S: Shelf>(
    alloc: Global,
    shelf: Option<&S>,
    number: u64,
    entry: Result<(u64, &[u8]), &[u8]>,
    why: &[u8],
) -> Result<Vec<u8>, AllocError>
    ensures { IfOk result (λ said. said.items ≡ line_said (shelved S.holds shelf.entry) number (entry_told entry.entry) why.now) }
{
    let mut said = Vec::from_slice(alloc, b"line ")?;
    push_number(&mut said, number)?;
    push_hour(&mut said, shelf, entry)?;
    said.extend_from_slice(b": ")?;
    said.extend_from_slice(why)?;
    Ok(said)
}

/// What is said of the file of samples.
pub(crate) fn file_said(alloc: Global, file: &str, what: &[u8]) -> Result<Vec<u8>, AllocError>
    ensures { IfOk result (λ said. said.items ≡ file_said file.now what.now) }
{
    let mut said = Vec::from_slice(alloc, b"hourly: ")?;
    push_shown(&mut said, file.as_bytes())?;
    said.extend_from_slice(b": ")?;
    said.extend_from_slice(what)?;
    said.extend_from_slice(b"\n")?;
    Ok(said)
}

/// What is said of a counter that is asked for.
pub(crate) fn counter_said(
    alloc: Global,
    counter: &[u8],
    what: &[u8],
) -> Result<Vec<u8>, AllocError>
    ensures { IfOk result (λ said. said.items ≡ counter_said counter.now what.now) }
{
    let mut said = Vec::from_slice(alloc, b"hourly: counter ")?;
    said.extend_from_slice(counter)?;
    said.extend_from_slice(b": ")?;
    said.extend_from_slice(what)?;
    said.extend_from_slice(b"\n")?;
    Ok(said)
}
