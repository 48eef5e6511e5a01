// Tells log pages in words: the page of standard input, or those of the files that are named. What is written of them, and the exit status,
// is `page_text`'s; here the words of the command line are read.
#![tactic(auto)]

mod options;

use options::{command, query};
use page_text::{Disk, Lost, exit_status};
use std::io::ErrorKind;
use std::process::ExitCode;
use std::{env, io};

// The exit status that clap gives an error of usage.
const USAGE: u8 = 2;

// Help, and what is wrong with the words, is printed by clap. An `Err` is of memory, or of a word that is no text.
fn run(rt: &HostRuntime) -> io::Result<u8> {
    let alloc = rt.alloc();
    let words: Vec<String> = env::args(rt)?.collect(alloc)?;
    let matches = match command(alloc)?.try_get_matches_from(words.as_slice()) {
        Ok(matches) => matches,
        Err(error) if error.kind() == clap::error::ErrorKind::OutOfMemory => {
            return Err(io::Error::from(ErrorKind::OutOfMemory));
        }
        Err(error) => {
            return Ok(match error.print(rt) {
                Ok(()) => error.exit_code() as u8,
                Err(_) => exit_status(Err(Lost::said_on(&mut rt.stderr()))),
            });
        }
    };
    let Some(query) = query(alloc, &matches) else {
        return Ok(USAGE);
    };
    // The words that clap has for files are the names, as they are.
    Ok(exit_status(query.run(
        &Disk { rt },
        matches.get_strs("file").unwrap_or(&[]),
        &mut rt.stdin(),
        &mut rt.stdout(),
        &mut rt.stderr(),
    )))
}

fn main(rt: HostRuntime) -> ExitCode {
    match run(&rt) {
        Ok(status) => ExitCode::from(status),
        Err(error) if error.kind() == ErrorKind::OutOfMemory => {
            ExitCode::from(exit_status(Err(Lost::said_on(&mut rt.stderr()))))
        }
        Err(error) => {
            let _ = eprintln!(rt; "read_page: {error}");
            ExitCode::from(USAGE)
        }
    }
}
