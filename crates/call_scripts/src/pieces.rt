// A run whose input is read in large pieces, on a bench that begins with zeros.
ghost use Rattle.std.specs.Prelude.{◌≡◌, Option, List, ℕ, replicate, IfOk};
ghost use Rattle.call_scripts.specs.Scripts.{fresh, Ran, HasRun};

use crate::MEDIUM_SIZE;
use crate::bench::Bench;
use crate::running::run;
use events::{Ended, PIECE, RunError, say};
use std::alloc::{AllocError, Global};
use std::io::{BufReader, Read, Write};

/// So many zeros.
pub(crate) fn zeros(alloc: Global, size: usize) -> Result<Vec<u8>, AllocError>
    ensures { IfOk result (λ zeros. zeros.items ≡ replicate size 0) }
{
    vec![in alloc; 0; size]
}

// On a medium of so many bytes; with no memory for it or for the pieces nothing is read or written.
#[tactic(auto, unfolding(crate::specs::Scripts::fresh))]
fn run_pieces<R: Read + Drop, W: Write>(
    alloc: Global,
    size: usize,
    reader: R,
    out: &mut W,
) -> Result<(), RunError>
    ensures { (left : Option (List ℕ)) × Ran (fresh size) (R.remaining reader) left (W.contents out.old) (W.contents out.new) result }
{
    let Ok(mut medium) = zeros(alloc, size) else {
        return Err(RunError::Memory);
    };
    let Ok(mut pieces) = BufReader::with_capacity(alloc, PIECE, reader) else {
        return Err(RunError::Memory);
    };
    run(alloc, &mut Bench::new(&mut medium), &mut pieces, out)
}

/// Runs a script from zeros on, and says on `errors` where lines are missing.
pub fn run_script<R: Read + Drop, W: Write, E: Write>(
    alloc: Global,
    reader: R,
    out: &mut W,
    errors: &mut E,
) -> Ended
    ensures { HasRun (R.remaining reader) (W.contents out.old) (W.contents out.new) (E.contents errors.old) (E.contents errors.new) result }
{
    let run = run_pieces(alloc, MEDIUM_SIZE, reader, out);
    let said = say(&run, errors);
    Ended { run, said }
}
