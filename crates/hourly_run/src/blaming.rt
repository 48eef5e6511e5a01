// What is said of a table that is refused: which counter, or which line, and why.
ghost use Rattle.std.specs.Prelude.{◌≡◌, ◌+◌, ◌<◌, ◌^◌, IfOk, find, map, string_bytes, unwrap_or};
ghost use Rattle.std.specs.Option.{ForSome};
ghost use Rattle.pages.specs.Read11.{no_number};
ghost use Rattle.hourly_table.specs.Samples.{sampled};
ghost use Rattle.hourly_run.specs.Lines.{lines_of};
ghost use Rattle.hourly_run.specs.Pages.{shelved};
ghost use Rattle.hourly_run.specs.Blamed.{length_text, reading_words, refusal_words, numbered, length_at, at_line, counter_blamed, blames_counter, refusal_said};

use crate::entries::entry_of;
use crate::readings::line_at;
use crate::saying::{counter_said, file_said, line_said};
use hourly_table::{Sample, TableRefusal, place_of};
use page_text::Shelf;
use pages::{PAGE_SIZE, is_counter_number};
use refusals::Refusal;
use std::alloc::{AllocError, Global};

fn length_text(alloc: Global, length: usize) -> Result<String, AllocError>
    ensures { IfOk result (λ text. string_bytes text ≡ length_text length) }
{
    if PAGE_SIZE < length {
        String::from_str(alloc, "more than 512")
    } else {
        format!(in alloc; "{length}")
    }
}

// Why a reader refuses; no other refusal than these is a table's.
fn reading_words(alloc: Global, length: usize, refusal: Refusal) -> Result<String, AllocError>
    ensures { IfOk result (λ words. string_bytes words ≡ reading_words length refusal) }
{
    match refusal {
        Refusal::PageLength => {
            let length = length_text(alloc, length)?;
            format!(in alloc; "the length of the page is {length}, not 512")
        }
        Refusal::PageSum => String::from_str(alloc, "the bytes of the page do not add up to 0"),
        Refusal::PageDamaged => String::from_str(
            alloc,
            "an entry that no page may have, or two of a counter that is asked for",
        ),
        Refusal::NoCounter => String::from_str(alloc, "not 1 to FFF"),
        _ => String::from_str(alloc, "refused"),
    }
}

// Why there is no table; of the page to blame its length.
fn refusal_words(alloc: Global, length: usize, refusal: TableRefusal) -> Result<String, AllocError>
    ensures { IfOk result (λ words. string_bytes words ≡ refusal_words length refusal) }
{
    match refusal {
        TableRefusal::Reading(refusal) => reading_words(alloc, length, refusal),
        TableRefusal::HourBackwards => {
            String::from_str(alloc, "the hour is lower than the one before it")
        }
        TableRefusal::TableShort => {
            String::from_str(alloc, "the table has more than 1073741824 bytes")
        }
    }
}

// And the number of the refusal.
fn numbered(alloc: Global, length: usize, refusal: TableRefusal) -> Result<String, AllocError>
    ensures { IfOk result (λ words. string_bytes words ≡ numbered length refusal) }
{
    let words = refusal_words(alloc, length, refusal)?;
    let number = refusal.number();
    format!(in alloc; "{words} ({number})")
}

// How long the page of the sample to blame is.
fn length_at(samples: &[Sample<'_>], place: Option<usize>) -> usize
    ensures { result ≡ length_at (map sampled samples.now) place }
{
    let Some(place) = place else {
        return 0;
    };
    match samples.get(place) {
        Some(sample) => sample.page.len(),
        None => 0,
    }
}

// At the line of the sample to blame, what is wrong.
fn at_line<S: Shelf>(
    alloc: Global,
    shelf: Option<&S>,
    text: &[u8],
    place: Option<usize>,
    why: &[u8],
) -> Result<Vec<u8>, AllocError>
    requires { ForSome place (λ k. k + 1 < 2 ^ 64) }
    ensures { IfOk result (λ said. said.items ≡ at_line (shelved S.holds shelf.entry) (lines_of text.now) place why.now) }
{
    let Some(place) = place else {
        return Vec::from_slice(alloc, why);
    };
    let entry = entry_of(line_at(text, place));
    line_said(alloc, shelf, place as u64 + 1, entry, why)
}

fn first_no_counter(numbers: &[u16]) -> Option<u16>
    ensures { result ≡ find no_number numbers.now }
{
    numbers
        .iter()
        .copied()
        .find(|&number| !is_counter_number(number))
}

fn counter_blamed(alloc: Global, numbers: &[u16]) -> Result<String, AllocError>
    ensures { IfOk result (λ counter. string_bytes counter ≡ counter_blamed numbers.now) }
{
    let number = first_no_counter(numbers).unwrap_or(0);
    format!(in alloc; "{number:03X}")
}

// A number that is none is the fault of no page.
fn blames_counter(refusal: TableRefusal) -> bool
    ensures { result ≡ blames_counter refusal }
{
    match refusal {
        TableRefusal::Reading(Refusal::NoCounter) => true,
        _ => false,
    }
}

/// What is said of a table that is refused.
pub(crate) fn refusal_said<S: Shelf>(
    alloc: Global,
    file: &str,
    shelf: Option<&S>,
    text: &[u8],
    numbers: &[u16],
    samples: &[Sample<'_>],
    refusal: TableRefusal,
) -> Result<Vec<u8>, AllocError>
    ensures { IfOk result (λ said. said.items ≡ refusal_said file.now (shelved S.holds shelf.entry) (lines_of text.now) numbers.now (map sampled samples.now) refusal) }
{
    if blames_counter(refusal) {
        let counter = counter_blamed(alloc, numbers)?;
        let words = numbered(alloc, 0, refusal)?;
        return counter_said(alloc, counter.as_bytes(), words.as_bytes());
    }
    let place = place_of(samples, numbers, refusal);
    let words = numbered(alloc, length_at(samples, place), refusal)?;
    let said = at_line(alloc, shelf, text, place, words.as_bytes())?;
    file_said(alloc, file, &said)
}
