// Output in one piece.
ghost use Rattle.std.specs.Prelude.{OnOk, OnErr};
ghost use Rattle.std.specs.Io.KnownBytes.{Appends};
ghost use Rattle.streams.specs.Fronts.{AppendsFront};

use std::io;
use std::io::{Error, ErrorKind, Write};

/// All of a text, or a front of it that is not all. A write that a signal broke off is tried again.
/// The library's `write_all` does the same, and says nothing of what was written where it fails.
///
/// # Errors
/// The writer's: the first error that a write gives, but for `ErrorKind::Interrupted`; `ErrorKind::WriteZero` where a write takes
/// nothing; `ErrorKind::TimedOut` where `u64::MAX` writes have not sufficed. A front of the text is written then, and not all of it.
#[tactic(auto, using(crate::proofs::Pieces::writes))]
pub fn put<W: Write>(out: &mut W, text: &[u8]) -> io::Result<()>
    ensures ok { OnOk result (Appends (W.contents out.old) (W.contents out.new) text.now) }
    ensures err { OnErr result (AppendsFront (W.contents out.old) (W.contents out.new) text.now) }
{
    let mut rest = text;
    for _ in 0..u64::MAX {
        if rest.is_empty() {
            break;
        }
        match out.write(rest) {
            Ok(0) => return Err(Error::from(ErrorKind::WriteZero)),
            Ok(n) => rest = &rest[n..],
            Err(e) if e.kind() == ErrorKind::Interrupted => {}
            Err(e) => return Err(e),
        }
    }
    if rest.is_empty() {
        Ok(())
    } else {
        Err(Error::from(ErrorKind::TimedOut))
    }
}
