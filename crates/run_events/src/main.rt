// Runs an event file: standard input to standard output, one line an event; with the word `trace` each reply with its bytes.
#![tactic(auto)]

use events::{PIECE, exit_status, run_aloud};
use std::io::{BufReader, ErrorKind};
use std::process::ExitCode;
use std::{env, io};
use streams::{Watched, complain};
use version::VERSION;

// The exit statuses where the words of the command line ask for nothing that is known, and where the version could not be written.
const USAGE: u8 = 2;

const LINES_MISSING: u8 = 4;

// What the words of the command line ask for.
#[derive(Clone, Copy)]
enum Request {
    // a run, with the bytes of each reply or without
    Run { traced: bool },
    // the version
    Version,
}

// What they ask for; `None` where that is nothing that is known. An `Err` is of memory, or of a word
// that is no text.
fn asked(rt: &HostRuntime) -> io::Result<Option<Request>> {
    let mut words = env::args(rt)?.skip(1);
    let Some(word) = words.next() else {
        return Ok(Some(Request::Run { traced: false }));
    };
    if words.next().is_some() {
        return Ok(None);
    }
    Ok(match word.as_str() {
        "trace" => Some(Request::Run { traced: true }),
        "--version" => Some(Request::Version),
        _ => None,
    })
}

fn no_memory(rt: HostRuntime) -> u8 {
    let _ = complain(&mut rt.stderr());
    LINES_MISSING
}

fn run(rt: HostRuntime, traced: bool) -> u8 {
    let Ok(pieces) = BufReader::with_capacity(rt.alloc(), PIECE, rt.stdin()) else {
        return no_memory(rt);
    };
    let mut out = Watched::new(rt.stdout());
    let mut errors = Watched::new(rt.stderr());
    exit_status(&run_aloud(traced, &mut Watched::new(pieces), &mut out, &mut errors))
}

fn status(rt: HostRuntime) -> u8 {
    match asked(&rt) {
        Ok(Some(Request::Run { traced })) => run(rt, traced),
        Ok(Some(Request::Version)) => match println!(rt; "run_events {VERSION}") {
            Ok(()) => 0,
            Err(_) => LINES_MISSING,
        },
        Err(failed) if failed.kind() == ErrorKind::OutOfMemory => no_memory(rt),
        Ok(None) | Err(_) => {
            let _ = eprintln!(rt; "usage: run_events [trace] <EVENTS");
            USAGE
        }
    }
}

fn main(rt: HostRuntime) -> ExitCode {
    ExitCode::from(status(rt))
}
