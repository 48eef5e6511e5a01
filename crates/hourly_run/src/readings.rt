// The samples that a text tells.
ghost use Rattle.std.specs.Prelude.{◌≡◌, ◌<◌, ◌∷◌, ◌+◌, min, [], get_or, map, length, IfOk};
ghost use Rattle.std.specs.List.{position, position_or_len};
ghost use Rattle.hourly_table.specs.Samples.{sampled};
ghost use Rattle.hourly_run.specs.Lines.{is_lf, lines_of};
ghost use Rattle.hourly_run.specs.Entries.{entry_of};
ghost use Rattle.hourly_run.specs.Pages.{shelved};
ghost use Rattle.hourly_run.specs.Samples.{MayTell, SamplesOf};
ghost use Rattle.hourly_run.specs.Kept.{reading, reading_told, readings_told};

use crate::entries::entry_of;
use crate::page_sources::page_of;
use crate::saying::line_said;
use hourly_table::Sample;
use page_text::Shelf;
use std::alloc::{AllocError, Global};

/// A sample that owns its page.
#[derive(Debug, Drop)]
pub(crate) struct Reading {
    pub(crate) hour: u64,
    pub(crate) page: Vec<u8>,
}

// The sample of a line; or why it tells none, in words.
fn reading_of<S: Shelf>(
    alloc: Global,
    shelf: Option<&S>,
    line: &[u8],
) -> Result<Result<Reading, Vec<u8>>, AllocError>
    ensures { IfOk result (λ r. MayTell (shelved S.holds shelf.entry) (entry_of line.now) (reading_told r)) }
{
    match entry_of(line) {
        Ok((hour, behind)) => Ok(match page_of(alloc, shelf, behind)? {
            Ok(page) => Ok(Reading { hour, page }),
            Err(why) => Err(why),
        }),
        Err(why) => Ok(Err(Vec::from_slice(alloc, why)?)),
    }
}

fn first_lf(text: &[u8]) -> Option<usize>
    ensures { result ≡ position is_lf text.now }
{
    text.iter().position(|&byte| byte == b'\n')
}

// How long the first line of a text is, with its LF; the last may have none.
fn line_length(text: &[u8]) -> usize
    ensures { result ≡ min (position_or_len is_lf text.now + 1) (length text.now) }
{
    match first_lf(text) {
        Some(place) => place + 1,
        None => text.len(),
    }
}

// The first line, and what stands behind it.
fn cut_line(text: &[u8]) -> (&[u8], &[u8])
    requires { 0 < length text.now }
    ensures line { lines_of text.now ≡ result.0.now ∷ lines_of result.1.now }
    ensures shorter { length result.1.now < length text.now }
{
    let end = line_length(text);
    text.split_at(end)
}

/// The line at a place, from 0; an empty one behind the last.
pub(crate) fn line_at(text: &[u8], place: usize) -> &[u8]
    ensures { result.now ≡ get_or (lines_of text.now) place [] }
{
    let mut rest = text;
    for _ in 0..place {
        if rest.is_empty() {
            return rest;
        }
        rest = cut_line(rest).1;
    }
    if rest.is_empty() {
        return rest;
    }
    cut_line(rest).0
}

/// The samples of a text; or what is said of the first line that tells none.
pub(crate) fn readings_in<S: Shelf>(
    alloc: Global,
    shelf: Option<&S>,
    text: &[u8],
) -> Result<Result<Vec<Reading>, Vec<u8>>, AllocError>
    ensures { IfOk result (λ r. SamplesOf (shelved S.holds shelf.entry) text.now (readings_told r)) }
{
    let mut readings = Vec::new(alloc);
    let mut rest = text;
    while !rest.is_empty() {
        let (line, behind) = cut_line(rest);
        match reading_of(alloc, shelf, line)? {
            Ok(reading) => readings.push(reading)?,
            Err(why) => {
                let number = readings.len() as u64 + 1;
                return Ok(Err(line_said(alloc, shelf, number, entry_of(line), &why)?));
            }
        }
        rest = behind;
    }
    Ok(Ok(readings))
}

/// Samples that borrow the pages.
pub(crate) fn samples_of(alloc: Global, readings: &[Reading]) -> Result<Vec<Sample<'_>>, AllocError>
    ensures { IfOk result (λ v. map sampled v.items ≡ map reading readings.now) }
{
    let mut samples = Vec::new(alloc);
    for reading in readings {
        samples.push(Sample {
            hour: reading.hour,
            page: &reading.page,
        })?;
    }
    Ok(samples)
}
