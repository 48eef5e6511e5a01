// What is told of an input that was read.
ghost use Rattle.std.specs.Prelude.{◌≡◌, ◌++◌, ◌^◌, IfOk, MatchResult, Ok, Err, map};
ghost use Rattle.hourly_table.specs.Samples.{sampled};
ghost use Rattle.hourly_run.specs.Kept.{reading, table_told, telling_told};
ghost use Rattle.hourly_run.specs.Lines.{lines_of};
ghost use Rattle.hourly_run.specs.Owed.{refused_text, table_within, told_of, IsOwed};
ghost use Rattle.hourly_run.specs.Pages.{shelved};
ghost use Rattle.hourly_run.specs.Blamed.{refusal_said};

use crate::answers::{Answer, Telling};
use crate::blaming::refusal_said;
use crate::readings::{Reading, readings_in, samples_of};
use crate::saying::file_said;
use hourly_table::{Sample, TableRefusal, table_size, write_table};
use page_text::Shelf;
use std::alloc::{AllocError, Global};

/// A table of more bytes is refused as too long.
const ROOM: usize = 1 << 30;

// The table in a buffer of its size; or why there is none.
fn table_text(
    alloc: Global,
    samples: &[Sample<'_>],
    numbers: &[u16],
) -> Result<Result<Vec<u8>, TableRefusal>, AllocError>
    ensures { IfOk result (λ r. table_told r ≡ table_within (map sampled samples.now) numbers.now) }
{
    let size = match table_size(samples, numbers, ROOM) {
        Ok(size) => size,
        Err(refusal) => return Ok(Err(refusal)),
    };
    let mut table = vec![in alloc; 0; size]?;
    match write_table(&mut table, samples, numbers) {
        Ok(_) => Ok(Ok(table)),
        Err(refusal) => Ok(Err(refusal)),
    }
}

fn refused_text(alloc: Global, refusal: TableRefusal) -> Result<Vec<u8>, AllocError>
    ensures { IfOk result (λ text. text.items ≡ refused_text refusal) }
{
    Ok(format!(in alloc; "refused {refusal}\n")?.into_bytes())
}

// The table of the samples of a text, or the refusal.
fn table_of<S: Shelf>(
    alloc: Global,
    file: &str,
    shelf: Option<&S>,
    text: &[u8],
    numbers: &[u16],
    readings: &[Reading],
) -> Result<Telling, AllocError>
    ensures { IfOk result (λ t. telling_told t ≡ told_of (refusal_said file.now (shelved S.holds shelf.entry) (lines_of text.now) numbers.now (map reading readings.now)) (table_within (map reading readings.now) numbers.now)) }
{
    let samples = samples_of(alloc, readings)?;
    match table_text(alloc, &samples, numbers)? {
        Ok(table) => Ok(Telling {
            answer: Answer::Told,
            text: table,
            said: Vec::new(alloc),
        }),
        Err(refusal) => Ok(Telling {
            answer: Answer::Refused,
            text: refused_text(alloc, refusal)?,
            said: refusal_said(alloc, file, shelf, text, numbers, &samples, refusal)?,
        }),
    }
}

/// What the whole input is owed.
pub(crate) fn tell<S: Shelf>(
    alloc: Global,
    file: &str,
    shelf: Option<&S>,
    numbers: &[u16],
    input: &[u8],
) -> Result<Telling, AllocError>
    ensures { IfOk result (λ t. IsOwed file.now (shelved S.holds shelf.entry) numbers.now input.now (telling_told t)) }
{
    match readings_in(alloc, shelf, input)? {
        Ok(readings) => table_of(alloc, file, shelf, input, numbers, &readings),
        Err(said) => Ok(Telling {
            answer: Answer::Malformed,
            text: Vec::from_slice(alloc, b"stop\n")?,
            said: file_said(alloc, file, &said)?,
        }),
    }
}
