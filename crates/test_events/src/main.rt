// Runs each event file that an argument names under its name: by the run of run_events, by that of trace_events, by the first again
// with its input in pieces that hardly hold an event; and last its events by the public calls of a device by value, beside a device that is kept.
// Behind the word `--by-value` each file is played by these calls alone, and counted: `tests/bench` takes the time of that.
#![tactic(auto)]

mod by_value;

use events::{PIECE, run_aloud};
use std::env::{Env, FillError};
use std::io::{BufReader, Read, Write};
use std::{env, fs, io};
use streams::Watched;
use version::VERSION;

// A file that cannot be opened is told from one whose run stops.
fn run_file(rt: HostRuntime, path: &str, traced: bool, piece: usize) -> io::Result<()> {
    let Ok(file) = fs::open(&rt, path) else {
        return rt.stdout().write_all(b"cannot be opened\n");
    };
    let mut pieces = Watched::new(BufReader::with_capacity(rt.alloc(), piece, file)?);
    let mut out = Watched::new(rt.stdout());
    let mut errors = Watched::new(rt.stderr());
    let _ = run_aloud(traced, &mut pieces, &mut out, &mut errors);
    Ok(())
}

// All of a file.
fn read_all(rt: HostRuntime, path: &str) -> io::Result<Vec<u8>> {
    let mut file = fs::open(&rt, path)?;
    let mut bytes = Vec::new(rt.alloc());
    file.read_to_end(&mut bytes)?;
    Ok(bytes)
}

// How many events came to the same by value and kept; of a file that cannot be read, none.
fn compare_file(rt: HostRuntime, path: &str) -> io::Result<()> {
    let compared = match read_all(rt, path) {
        Ok(events) => by_value::compare(&events),
        Err(_) => by_value::compare(&[]),
    };
    let outcome = if compared.same {
        "the same"
    } else {
        "NOT THE SAME"
    };
    println!(rt; "by value: {}, {outcome}", compared.played)
}

// What the events of a file come to by value.
fn count_file(rt: HostRuntime, path: &str) -> io::Result<()> {
    let counted = by_value::play(&read_all(rt, path)?);
    println!(rt;
        "{} events, {} refused, {} bytes of replies",
        counted.played, counted.refused, counted.sent
    )
}

// What the files that are named behind so many words come to by value.
fn count_files(rt: HostRuntime, words: usize) -> io::Result<()> {
    for path in env::args(&rt)?.skip(words) {
        if path.as_str() != "--by-value" {
            count_file(rt, &path)?;
        }
    }
    Ok(())
}

// What the file of a name comes to; a name that is no text is that of no file.
fn run_name(rt: HostRuntime, name: &[u8]) -> io::Result<()> {
    let mut out = rt.stdout();
    out.write_all(name)?;
    out.write_all(b"\n")?;
    let Ok(path) = str::from_utf8(name) else {
        return out.write_all(b"cannot be opened\n");
    };
    run_file(rt, path, false, PIECE)?;
    run_file(rt, path, true, PIECE)?;
    run_file(rt, path, false, 23)?;
    compare_file(rt, path)
}

// The most bytes of a name. Names end before a word that is longer, or that has no bytes.
const NAME_LIMIT: usize = 4096;

// The word of the command line at a place, in front of the room; no bytes where names end.
fn word_at(rt: HostRuntime, place: usize, room: &mut [u8; NAME_LIMIT]) -> &[u8] {
    let size = rt.arg(place, room).unwrap_or(0);
    &room[..size]
}

// Whether the words of the command line ask for the version, and for nothing else.
fn asks_version(rt: HostRuntime) -> bool {
    let mut room = [0; NAME_LIMIT];
    matches!(word_at(rt, 1, &mut room), b"--version")
        && matches!(rt.arg(2, &mut room), Err(FillError::NotPresent))
}

fn main(rt: HostRuntime) -> io::Result<()> {
    if asks_version(rt) {
        return println!(rt; "test_events {VERSION}");
    }
    let mut room = [0; NAME_LIMIT];
    for place in 1..usize::MAX {
        match word_at(rt, place, &mut room) {
            b"" => return Ok(()),
            b"--by-value" => return count_files(rt, place + 1),
            name => run_name(rt, name)?,
        }
    }
    Ok(())
}
