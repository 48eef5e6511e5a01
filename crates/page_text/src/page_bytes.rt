// A page that stands in its input as bytes, read into a room of fixed size.
ghost use Rattle.std.specs.Prelude.{◌≡◌, ◌<◌, ◌≤◌, IsTrue, length, take, IfOk};
ghost use Rattle.std.specs.Io.KnownBytes.{Consumes, IsAtEnd};
ghost use Rattle.streams.specs.Fronts.{Filled};

use std::io;
use std::io::{Error, ErrorKind, Read};

// One read: how many bytes, and whether the input ends behind them. None of them, and no end, where a signal broke it off.
#[tactic(auto, using(crate::proofs::Owing::kept_none))]
fn read_once<R: Read>(reader: &mut R, room: &mut [u8]) -> io::Result<(usize, bool)>
    ensures same { length room.new ≡ length room.old }
    ensures some { IfOk result (λ read. read.0 ≤ length room.new) }
    ensures bytes { IfOk result (λ read. Consumes (R.remaining reader.old) (R.remaining reader.new) (take read.0 room.new)) }
    ensures end { IfOk result (λ read. IsTrue read.1 → 0 < length room.old → IsAtEnd (R.remaining reader.new)) }
{
    match reader.read(room) {
        Ok(n) => Ok((n, n == 0)),
        Err(e) if e.kind() == ErrorKind::Interrupted => Ok((0, false)),
        Err(e) => Err(e),
    }
}

/// Reads until the room is full or the input ends: how many bytes the room holds then. What a signal broke off is tried again.
///
/// # Errors
/// The reader's.
#[tactic(auto, using(streams::proofs::Filling::grows_more))]
pub(crate) fn fill_again<R: Read>(reader: &mut R, room: &mut [u8]) -> io::Result<usize>
    ensures same { length room.new ≡ length room.old }
    ensures ok { IfOk result (λ n. Filled (R.remaining reader.old) (R.remaining reader.new) n room.new) }
{
    let mut filled: usize = 0;
    // So many tries are never made; each loop has an end.
    for _ in 0..u64::MAX {
        if filled == room.len() {
            return Ok(filled);
        }
        let (n, ended) = read_once(reader, &mut room[filled..])?;
        filled += n;
        if ended {
            return Ok(filled);
        }
    }
    Err(Error::from(ErrorKind::Other))
}
