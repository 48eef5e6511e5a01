// Input in one piece, or a byte of it.
ghost use Rattle.std.specs.Prelude.{◌≡◌, [], length, IfOk, OnErr};
ghost use Rattle.std.specs.Io.KnownBytes.{Consumes};
ghost use Rattle.streams.specs.Fronts.{Filled, StuckBefore, ReadByte};

use std::io;
use std::io::Read;

/// Reads until the buffer is full or the input ends: how many bytes the buffer holds then.
/// The library's `read_exact` tells neither how many it read nor an input that ends within the buffer from one that ends before it.
///
/// # Errors
/// The reader's: the first error that a read gives, `ErrorKind::Interrupted` too. What was read before it stands in front of the
/// buffer.
#[tactic(auto, using(crate::proofs::Filling::grows_more))]
pub fn fill<R: Read>(reader: &mut R, buffer: &mut [u8]) -> io::Result<usize>
    ensures same { length buffer.new ≡ length buffer.old }
    ensures ok { IfOk result (λ n. Filled (R.remaining reader.old) (R.remaining reader.new) n buffer.new) }
    ensures err { OnErr result (StuckBefore (R.remaining reader.old) (R.remaining reader.new) buffer.new) }
{
    let mut filled: usize = 0;
    while filled < buffer.len() {
        let n = reader.read(&mut buffer[filled..])?;
        if n == 0 {
            return Ok(filled);
        }
        filled += n;
    }
    Ok(filled)
}

/// The next byte; none at the input's end.
///
/// # Errors
/// Those of [`fill`]: no byte was read then.
pub fn read_byte<R: Read>(reader: &mut R) -> io::Result<Option<u8>>
    ensures ok { IfOk result (λ byte. ReadByte (R.remaining reader.old) byte (R.remaining reader.new)) }
    ensures err { OnErr result (Consumes (R.remaining reader.old) (R.remaining reader.new) []) }
{
    let mut byte = [0u8; 1];
    if fill(reader, &mut byte)? == 0 {
        return Ok(None);
    }
    Ok(Some(byte[0]))
}
