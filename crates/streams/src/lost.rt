// Output that is missed aloud.
ghost use Rattle.std.specs.Prelude.{OnOk, OnErr};
ghost use Rattle.std.specs.Io.KnownBytes.{Appends};
ghost use Rattle.streams.specs.Fronts.{AppendsFront};
ghost use Rattle.streams.specs.Lost.{complaint};

use crate::writing::put;
use std::io;
use std::io::Write;

/// Lines that are missing are no good news: a run whose output fails says so where it still can.
///
/// # Errors
/// Those of [`put`]: a front of the line is written then, and not all of it.
pub fn complain<E: Write>(errors: &mut E) -> io::Result<()>
    ensures ok { OnOk result (Appends (E.contents errors.old) (E.contents errors.new) complaint) }
    ensures err { OnErr result (AppendsFront (E.contents errors.old) (E.contents errors.new) complaint) }
{
    put(errors, b"output failed: lines are missing\n")
}
