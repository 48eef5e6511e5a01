// Bytes as words tell them: in pairs of hex digits, or one pair so many times.
ghost use Rattle.std.specs.Prelude.{◌≡◌, IfOk, length, map};
ghost use Rattle.call_scripts.specs.Bytes.{decoded, repeated, word_bytes, bytes_of};

use crate::BYTES_MOST;
use crate::numbers::number_within;
use hex::FromHexError;
use std::alloc::{AllocError, Global};
use std::marker::Model;

/// Bytes that a line tells.
#[derive(Debug, Drop)]
pub struct Bytes {
    bytes: Vec<u8>,
}

impl Model for Bytes {
    ghost use Rattle.std.specs.Prelude.{List, ℕ};

    ghost Value = { List ℕ };

    ghost view = { λ b. b.bytes.items };
}

impl Bytes {
    /// All of them.
    pub(crate) fn as_slice(&self) -> &[u8]
        ensures { result.now ≡ self.now }
    {
        self.bytes.as_slice()
    }
}

// A word of pairs of digits.
fn decoded(alloc: Global, word: &[u8]) -> Result<Option<Bytes>, AllocError>
    ensures { IfOk result (λ told. told ≡ decoded word.now) }
{
    match hex::decode(alloc, word) {
        Ok(bytes) => Ok(Some(Bytes { bytes })),
        Err(FromHexError::OutOfMemory) => Err(AllocError),
        Err(_) => Ok(None),
    }
}

// A pair, and how often it stands there: `00*1fe`.
fn repeated(alloc: Global, pair: &[u8], count: &[u8]) -> Result<Option<Bytes>, AllocError>
    ensures { IfOk result (λ told. told ≡ repeated pair.now count.now) }
{
    let byte = number_within(pair, u32::from(u8::MAX));
    let (Some(byte), Some(count)) = (byte, number_within(count, BYTES_MOST)) else {
        return Ok(None);
    };
    let bytes = vec![in alloc; byte as u8; count as usize]?;
    Ok(Some(Bytes { bytes }))
}

fn word_bytes(alloc: Global, word: &[u8]) -> Result<Option<Bytes>, AllocError>
    ensures { IfOk result (λ told. told ≡ word_bytes word.now) }
{
    if word.get(2) == Some(&b'*') {
        return repeated(alloc, &word[..2], &word[3..]);
    }
    decoded(alloc, word)
}

/// The bytes that words tell, one behind the other; `None` where a word tells none, and for more than a line may tell.
#[tactic(auto, unfolding(crate::specs::Bytes::all_bytes))]
pub(crate) fn bytes_of(alloc: Global, words: &[&[u8]]) -> Result<Option<Bytes>, AllocError>
    ensures { IfOk result (λ told. told ≡ bytes_of (map (λ word. word.now) words.now)) }
{
    let mut bytes = Vec::new(alloc);
    for word in words {
        let Some(more) = word_bytes(alloc, word)? else {
            return Ok(None);
        };
        bytes.extend_from_slice(more.as_slice())?;
        if bytes.len() > BYTES_MOST as usize {
            return Ok(None);
        }
    }
    Ok(Some(Bytes { bytes }))
}
