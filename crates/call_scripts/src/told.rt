// What is told of a line that prints something else than it is to, or is at fault.
ghost use Rattle.std.specs.Prelude.{◌≡◌, ◌++◌, IfOk, OnOk};
ghost use Rattle.std.specs.Io.KnownBytes.{Appends};
ghost use Rattle.call_scripts.specs.Told.{in_line, one_line, place_text, labelled, difference_text, fault_text, hidden_said, unasked_said, silent_text};

use std::alloc::{AllocError, Global};
use std::io;
use std::io::Write;

fn push_in_line(line: &mut Vec<u8>, byte: u8) -> Result<(), AllocError>
    ensures { OnOk result (line.new.items ≡ line.old.items ++ in_line byte) }
{
    match byte {
        b'\n' => line.extend_from_slice(b" / ")?,
        _ => line.push(byte)?,
    }
    Ok(())
}

/// Lines in one, with ` / ` between them.
#[tactic(auto, unfolding(crate::specs::Told::one_line))]
pub(crate) fn one_line(alloc: Global, text: &[u8]) -> Result<Vec<u8>, AllocError>
    ensures { IfOk result (λ line. line.items ≡ one_line text.now) }
{
    let mut line = Vec::new(alloc);
    for byte in text {
        push_in_line(&mut line, *byte)?;
    }
    Ok(line)
}

// Where a line stands.
#[tactic(auto, unfolding(crate::specs::Told::place_text))]
fn write_place<W: Write>(out: &mut W, name: &str, number: u64) -> io::Result<()>
    ensures { OnOk result (Appends (W.contents out.old) (W.contents out.new) (place_text name.now number)) }
{
    out.write_all(name.as_bytes())?;
    writeln!(out, ":{number}:")
}

/// A line of a label and a text.
#[tactic(auto, unfolding(crate::specs::Told::labelled))]
pub(crate) fn write_labelled<W: Write>(out: &mut W, label: &[u8], text: &[u8]) -> io::Result<()>
    ensures { OnOk result (Appends (W.contents out.old) (W.contents out.new) (labelled label.now text.now)) }
{
    out.write_all(label)?;
    out.write_all(text)?;
    out.write_all(b"\n")
}

/// What is told of a line that prints something else than it is to.
pub(crate) fn write_difference<W: Write>(
    out: &mut W,
    name: &str,
    number: u64,
    wanted: &[u8],
    printed: &[u8],
) -> io::Result<()>
    ensures { OnOk result (Appends (W.contents out.old) (W.contents out.new) (difference_text name.now number wanted.now printed.now)) }
{
    write_place(out, name, number)?;
    write_labelled(out, b"  asked ", wanted)?;
    write_labelled(out, b"  got   ", printed)
}

// What is told of a line that is at fault.
fn write_fault<W: Write>(out: &mut W, name: &str, number: u64, said: &[u8]) -> io::Result<()>
    ensures { OnOk result (Appends (W.contents out.old) (W.contents out.new) (fault_text name.now number said.now)) }
{
    write_place(out, name, number)?;
    write_labelled(out, b"  fault ", said)
}

/// What is told of a line whose comment has a `->`.
pub(crate) fn write_hidden<W: Write>(out: &mut W, name: &str, number: u64) -> io::Result<()>
    ensures { OnOk result (Appends (W.contents out.old) (W.contents out.new) (fault_text name.now number hidden_said)) }
{
    write_fault(out, name, number, b"a -> behind # asks for nothing")
}

/// What is told of a line that prints `what?` and does not say so.
pub(crate) fn write_unasked<W: Write>(out: &mut W, name: &str, number: u64) -> io::Result<()>
    ensures { OnOk result (Appends (W.contents out.old) (W.contents out.new) (fault_text name.now number unasked_said)) }
{
    write_fault(out, name, number, b"what? is printed, and not asked for")
}

/// What is told of a script of which no line says what it is to print.
#[tactic(auto, unfolding(crate::specs::Told::silent_text))]
pub(crate) fn write_silent<W: Write>(out: &mut W, name: &str) -> io::Result<()>
    ensures { OnOk result (Appends (W.contents out.old) (W.contents out.new) (silent_text name.now)) }
{
    out.write_all(name.as_bytes())?;
    write_labelled(out, b":\n  fault ", b"no line says what it is to print")
}
