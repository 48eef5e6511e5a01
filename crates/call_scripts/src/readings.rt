// What `read` is given.
ghost use Rattle.std.specs.Prelude.{◌≡◌, IfOk};
ghost use Rattle.call_scripts.specs.Readings.{part_of, part_words, counter_at, queued_at, reading_at, reading_of};

use crate::bytes::Bytes;
use crate::names::named;
use crate::words::Words;
use std::alloc::{AllocError, Global};

/// What is read, by the word behind `read`.
#[derive(Clone, Copy, Debug, PartialEq, Eq)]
enum Part {
    Frame,
    Pieces,
    ErrorPage,
    CounterPage,
    Row,
    Queued,
}

/// What is read, and from what.
#[derive(Debug, Drop)]
pub enum Reading {
    /// A frame.
    Frame(Bytes),
    /// Several frames, one behind the other.
    Pieces(Bytes),
    /// Page 10h.
    ErrorPage(Bytes),
    /// A counter of page 11h.
    Counter {
        /// The counter's number.
        number: u16,
        /// The page.
        page: Bytes,
    },
    /// The row of a counter's number.
    Row(u16),
    /// Tag and sectors of a queued command.
    Queued {
        /// Its byte 3.
        features: u8,
        /// Its byte 11.
        high: u8,
        /// Its bytes 12 and 13.
        count: u16,
    },
}

const PARTS: [(&[u8], Part); 6] = [
    (b"frame", Part::Frame),
    (b"pieces", Part::Pieces),
    (b"10", Part::ErrorPage),
    (b"11", Part::CounterPage),
    (b"row", Part::Row),
    (b"queued", Part::Queued),
];

impl Part {
    fn named(word: &[u8]) -> Option<Part>
        ensures { result ≡ part_of word.now }
    {
        named(&PARTS, word)
    }

    // How many words the line has that reads it, if that is fixed.
    fn words(self) -> Option<usize>
        ensures { result ≡ part_words self }
    {
        match self {
            Part::Row => Some(3),
            Part::Queued => Some(5),
            Part::Frame | Part::Pieces | Part::ErrorPage | Part::CounterPage => None,
        }
    }
}

impl<'a> Words<'a> {
    fn counter(&self, alloc: Global) -> Result<Option<Reading>, AllocError>
        ensures { IfOk result (λ reading. reading ≡ counter_at self.now) }
    {
        let Some(number) = self.short(2) else {
            return Ok(None);
        };
        let page = self.bytes(alloc, 3)?;
        Ok(page.map(|page| Reading::Counter { number, page }))
    }

    fn queued(&self) -> Option<Reading>
        ensures { result ≡ queued_at self.now }
    {
        Some(Reading::Queued {
            features: self.byte(2)?,
            high: self.byte(3)?,
            count: self.short(4)?,
        })
    }

    fn reading(&self, alloc: Global, part: Part) -> Result<Option<Reading>, AllocError>
        ensures { IfOk result (λ reading. reading ≡ reading_at self.now part) }
    {
        match part {
            Part::Frame => Ok(self.bytes(alloc, 2)?.map(Reading::Frame)),
            Part::Pieces => Ok(self.bytes(alloc, 2)?.map(Reading::Pieces)),
            Part::ErrorPage => Ok(self.bytes(alloc, 2)?.map(Reading::ErrorPage)),
            Part::CounterPage => self.counter(alloc),
            Part::Row => Ok(self.short(2).map(Reading::Row)),
            Part::Queued => Ok(self.queued()),
        }
    }

    /// What the words behind `read` ask for.
    pub(crate) fn asked_reading(&self, alloc: Global) -> Result<Option<Reading>, AllocError>
        ensures { IfOk result (λ reading. reading ≡ reading_of self.now) }
    {
        let Some(word) = self.word(1) else {
            return Ok(None);
        };
        match Part::named(word) {
            Some(part) if self.fit(part.words()) => self.reading(alloc, part),
            _ => Ok(None),
        }
    }
}
