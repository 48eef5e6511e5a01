// Runs an event file as run_events does, each reply with its bytes.
#![tactic(auto)]

use events::{PIECE, exit_status, run_aloud};
use std::io::{BufReader, ErrorKind};
use std::process::ExitCode;
use std::{env, io};
use streams::{Watched, complain};
use version::VERSION;

// The exit statuses where the words of the command line ask for nothing that is known, and where the version could not be written.
const USAGE: u8 = 2;

const LINES_MISSING: u8 = 4;

// Whether the words of the command line ask for the version, and not for a run; `None` where they
// ask for nothing that is known. An `Err` is of memory, or of a word that is no text.
fn asks_version(rt: &HostRuntime) -> io::Result<Option<bool>> {
    let mut words = env::args(rt)?.skip(1);
    let Some(word) = words.next() else {
        return Ok(Some(false));
    };
    Ok((word.as_str() == "--version" && words.next().is_none()).then_some(true))
}

fn no_memory(rt: HostRuntime) -> u8 {
    let _ = complain(&mut rt.stderr());
    LINES_MISSING
}

fn run(rt: HostRuntime) -> u8 {
    let Ok(pieces) = BufReader::with_capacity(rt.alloc(), PIECE, rt.stdin()) else {
        return no_memory(rt);
    };
    let mut out = Watched::new(rt.stdout());
    let mut errors = Watched::new(rt.stderr());
    exit_status(&run_aloud(true, &mut Watched::new(pieces), &mut out, &mut errors))
}

fn status(rt: HostRuntime) -> u8 {
    match asks_version(&rt) {
        Ok(Some(false)) => run(rt),
        Ok(Some(true)) => match println!(rt; "trace_events {VERSION}") {
            Ok(()) => 0,
            Err(_) => LINES_MISSING,
        },
        Err(failed) if failed.kind() == ErrorKind::OutOfMemory => no_memory(rt),
        Ok(None) | Err(_) => {
            let _ = eprintln!(rt; "usage: trace_events <EVENTS");
            USAGE
        }
    }
}

fn main(rt: HostRuntime) -> ExitCode {
    ExitCode::from(status(rt))
}
