// The words of a line: the command's, and behind it those that it is given.
ghost use Rattle.std.specs.Prelude.{◌≡◌, IfOk, length, drop, slice_get};
ghost use Rattle.std.specs.Option.{option_map};
ghost use Rattle.call_scripts.specs.Words.{asked_text, words_of, number_at, long_at, short_at, byte_at, flag_at, named_number, named_at, fits};
ghost use Rattle.call_scripts.specs.Bytes.{bytes_of};

use crate::bytes::{Bytes, bytes_of};
use crate::numbers::{number_within, wide_within};
use std::alloc::{AllocError, Global};
use std::marker::Model;

/// What a line asks for stands before a comment, and before what it is to print.
#[tactic(auto, unfolding(crate::specs::Words::asked_text), using(crate::proofs::WordLaws::text_next))]
pub(crate) fn asked_text(line: &[u8]) -> &[u8]
    ensures { result.now ≡ asked_text line.now }
{
    for (at, byte) in line.iter().enumerate() {
        if *byte == b'#' || line[at..].starts_with(b"->") {
            return &line[..at];
        }
    }
    line
}

// The number behind a name in one word.
fn named_number(word: &[u8], name: &[u8], most: u64) -> Option<u64>
    ensures { result ≡ named_number name.now most word.now }
{
    let (front, number) = word.split_at(name.len().min(word.len()));
    if front != name {
        return None;
    }
    wide_within(number, most)
}

/// The words of a text, which blanks separate.
#[derive(Drop)]
pub(crate) struct Words<'a> {
    words: Vec<&'a [u8]>,
}

impl<'a> Model for Words<'a> {
    ghost use Rattle.std.specs.Prelude.{List, ℕ, map};

    ghost Value = { List (List ℕ) };

    ghost view = { λ w. map (λ word. word.now) w.words.items };
}

impl<'a> Words<'a> {
    /// The words of a text.
    #[tactic(auto, unfolding(crate::specs::Words::words_of))]
    pub(crate) fn new(alloc: Global, text: &'a [u8]) -> Result<Words<'a>, AllocError>
        ensures { IfOk result (λ words. words ≡ words_of text.now) }
    {
        let mut words = Vec::new(alloc);
        for word in text.split(u8::is_ascii_whitespace) {
            if !word.is_empty() {
                words.push(word)?;
            }
        }
        Ok(Words { words })
    }

    /// How many words there are.
    pub(crate) fn len(&self) -> usize
        ensures { result ≡ length self.now }
    {
        self.words.len()
    }

    /// The word in a place.
    pub(crate) fn word(&self, place: usize) -> Option<&'a [u8]>
        ensures { option_map (λ word. word.now) result ≡ slice_get self.now place }
    {
        self.words.get(place).copied()
    }

    /// The number that the word in a place tells in hex, if it is at most so large.
    pub(crate) fn number(&self, place: usize, most: u32) -> Option<u32>
        ensures { result ≡ number_at self.now place most }
    {
        number_within(self.word(place)?, most)
    }

    /// A number of 32 bits.
    pub(crate) fn long(&self, place: usize) -> Option<u32>
        ensures { result ≡ long_at self.now place }
    {
        self.number(place, u32::MAX)
    }

    /// A number of 16 bits.
    pub(crate) fn short(&self, place: usize) -> Option<u16>
        ensures { result ≡ short_at self.now place }
    {
        self.small(place, u16::MAX)
    }

    /// A number of 16 bits, of at most so much.
    pub(crate) fn small(&self, place: usize, most: u16) -> Option<u16>
        ensures { result ≡ number_at self.now place most }
    {
        let number = self.number(place, u32::from(most))?;
        u16::try_from(number).ok()
    }

    /// A number of 8 bits, of at most so much.
    pub(crate) fn narrow(&self, place: usize, most: u8) -> Option<u8>
        ensures { result ≡ number_at self.now place most }
    {
        let number = self.number(place, u32::from(most))?;
        u8::try_from(number).ok()
    }

    /// A byte.
    pub(crate) fn byte(&self, place: usize) -> Option<u8>
        ensures { result ≡ byte_at self.now place }
    {
        self.narrow(place, u8::MAX)
    }

    /// A flag, which is 0 or 1.
    pub(crate) fn flag(&self, place: usize) -> Option<bool>
        ensures { result ≡ flag_at self.now place }
    {
        Some(self.number(place, 1)? == 1)
    }

    /// The number behind a name in the word in a place, of at most so much; the name ends in `=`.
    pub(crate) fn named(&self, place: usize, name: &[u8], most: u64) -> Option<u64>
        ensures { result ≡ named_at self.now place name.now most }
    {
        named_number(self.word(place)?, name, most)
    }

    /// The bytes that the words from a place on tell, each in pairs of hex digits.
    #[tactic(auto, using(crate::proofs::WordLaws::texts_behind))]
    pub(crate) fn bytes(&self, alloc: Global, place: usize) -> Result<Option<Bytes>, AllocError>
        ensures { IfOk result (λ bytes. bytes ≡ bytes_of (drop place self.now)) }
    {
        let (_, words) = self.words.split_at(place.min(self.words.len()));
        bytes_of(alloc, words)
    }

    /// Whether there are just so many words, if that is fixed.
    pub(crate) fn fit(&self, count: Option<usize>) -> bool
        ensures { result ≡ fits count (length self.now) }
    {
        match count {
            Some(count) => self.len() == count,
            None => true,
        }
    }
}
