// A run: the table of a named file.
ghost use Rattle.std.specs.Prelude.{◌≡◌, ◌++◌, IfOk, OnErr, Option, List, ℕ};
ghost use Rattle.std.specs.Io.KnownBytes.{Appends};
ghost use Rattle.page_text.specs.Opened.{Agrees};
ghost use Rattle.hourly_run.specs.Asked.{asked, misasked, pages_of, Owes};
ghost use Rattle.hourly_run.specs.Kept.{telling_told};
ghost use Rattle.hourly_run.specs.Owed.{telling, stop_text, OwesRead, OwesOpened};
ghost use Rattle.hourly_run.specs.Pages.{shelved};
ghost use Rattle.hourly_run.specs.Said.{file_said};
ghost use Rattle.hourly_run.specs.Shown.{shown};
ghost use Rattle.hourly_run.specs.Runs.{Answered, PrintsFront, Ran};

use crate::answers::{Answer, Telling};
use crate::questions::Question;
use crate::saying::{counter_said, failure, file_said, push_shown};
use crate::tables::tell;
use crate::words::numbers_in;
use page_text::{Lost, Shelf};
use std::alloc::{AllocError, Global};
use std::io;
use std::io::{Read, Write};
use streams::put;

// `stop`, and why the file was not read to its end.
fn unread(
    alloc: Global,
    file: &str,
    answer: Answer,
    what: &[u8],
    error: io::Error,
) -> Result<Telling, AllocError>
    ensures { IfOk result (λ t. (reason : List ℕ) × (telling_told t ≡ telling answer stop_text (file_said file.now (what.now ++ shown reason)))) }
{
    let why = failure(alloc, what, error)?;
    Ok(Telling {
        answer,
        text: Vec::from_slice(alloc, b"stop\n")?,
        said: file_said(alloc, file, &why)?,
    })
}

// A read that fails is told from an end, for what it keeps from us may be samples. So is memory that runs out for the input.
fn gather<S: Shelf, R: Read>(
    alloc: Global,
    file: &str,
    shelf: Option<&S>,
    numbers: &[u16],
    reader: &mut R,
) -> Result<Telling, AllocError>
    ensures { IfOk result (λ t. OwesRead file.now (shelved S.holds shelf.entry) numbers.now (R.remaining reader.old) t.answer t.text.items t.said.items) }
{
    let mut input = Vec::new(alloc);
    match reader.read_to_end(&mut input) {
        Ok(_) => tell(alloc, file, shelf, numbers, &input),
        Err(error) => unread(alloc, file, Answer::Stopped, b"read failed: ", error),
    }
}

// The file of samples, opened.
fn gather_file<S: Shelf>(
    alloc: Global,
    shelf: &S,
    file: &str,
    listed: bool,
    numbers: &[u16],
) -> Result<Telling, AllocError>
    ensures { IfOk result (λ t. (opened : Option (Option (List ℕ))) × Agrees (S.holds shelf.now file.now) opened × OwesOpened file.now (pages_of (S.holds shelf.now) listed) numbers.now opened t.answer t.text.items t.said.items) }
{
    let pages = if listed { Some(shelf) } else { None };
    match shelf.open(file) {
        Ok(mut samples) => gather(alloc, file, pages, numbers, &mut samples),
        Err(error) => unread(alloc, file, Answer::Unopened, b"not opened: ", error),
    }
}

// A word that is no counter, said; and nothing is printed.
fn misasked(alloc: Global, word: &str) -> Result<Telling, AllocError>
    ensures { IfOk result (λ t. telling_told t ≡ misasked word.now) }
{
    let mut counter = Vec::new(alloc);
    push_shown(&mut counter, word.as_bytes())?;
    Ok(Telling {
        answer: Answer::Misasked,
        text: Vec::new(alloc),
        said: counter_said(alloc, &counter, b"not 1 to 4 hex digits")?,
    })
}

fn answer<S: Shelf>(alloc: Global, shelf: &S, question: Question<'_>) -> Result<Telling, AllocError>
    ensures { IfOk result (λ t. Owes (S.holds shelf.now) (asked question.entry) t.answer t.text.items t.said.items) }
{
    match numbers_in(alloc, question.counters)? {
        Ok(numbers) => gather_file(alloc, shelf, question.file, question.listed, &numbers),
        Err(word) => misasked(alloc, word),
    }
}

// The text is put together before the first write, which so knows a front of it from all.
#[tactic(auto, using(crate::proofs::Printing::nothing_printed))]
fn print<S: Shelf, W: Write>(
    alloc: Global,
    shelf: &S,
    question: Question<'_>,
    out: &mut W,
) -> io::Result<Telling>
    ensures ok { IfOk result (λ t. Owes (S.holds shelf.now) (asked question.entry) t.answer t.text.items t.said.items × Appends (W.contents out.old) (W.contents out.new) t.text.items) }
    ensures err { OnErr result ((t : Answered (S.holds shelf.now) (asked question.entry)) × PrintsFront (W.contents out.old) (W.contents out.new) t.text) }
{
    let telling = answer(alloc, shelf, question)?;
    put(out, &telling.text)?;
    Ok(telling)
}

/// Prints the hourly table of the samples in a file on `shelf`, for the counters of the question. The pages lie in the files on
/// `shelf` that the lines name; or they stand in the lines, in hex. Says on `errors` which counter, file or line there is no
/// table for, and why, or that lines are missing. Hands back the status: 0 the table, 1 refused, 2 a word that is no counter, 3
/// malformed or unread.
///
/// # Errors
/// Where not all could be written.
pub fn run<S: Shelf, W: Write, E: Write>(
    alloc: Global,
    shelf: &S,
    question: Question<'_>,
    out: &mut W,
    errors: &mut E,
) -> Result<u8, Lost>
    ensures { Ran (S.holds shelf.now) (asked question.entry) (W.contents out.old) (W.contents out.new) (E.contents errors.old) (E.contents errors.new) result }
{
    match print(alloc, shelf, question, out) {
        Ok(telling) => match put(errors, &telling.said) {
            Ok(()) => Ok(telling.answer.status()),
            Err(_) => Err(Lost::Unsaid),
        },
        Err(_) => Err(Lost::said_on(errors)),
    }
}
