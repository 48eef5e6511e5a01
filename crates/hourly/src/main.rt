// The hourly table of a file of samples. What is printed and said of it, and the exit status, is `hourly_run`'s; here the words of the
// command line are read, and handed on as they stand.
#![tactic(auto)]

mod options;

use hourly_run::Question;
use options::command;
use page_text::{Disk, Lost, exit_status};
use std::alloc::AllocError;
use std::env;
use std::process::ExitCode;

// The exit status that clap gives an error of usage.
const USAGE: u8 = 2;

// The words, or none where one is no text: that is said.
fn words(rt: &HostRuntime) -> Result<Option<Vec<String>>, AllocError> {
    match env::args(rt) {
        Ok(words) => Ok(Some(words.collect(rt.alloc())?)),
        Err(error) => {
            let _ = eprintln!(rt; "hourly: {error}");
            Ok(None)
        }
    }
}

// Help, and what is wrong with the words, is printed by clap.
fn run(rt: &HostRuntime) -> Result<u8, AllocError> {
    let alloc = rt.alloc();
    let Some(words) = words(rt)? else {
        return Ok(USAGE);
    };
    let matches = match command(alloc)?.try_get_matches_from(words.as_slice()) {
        Ok(matches) => matches,
        Err(error) => {
            return Ok(match error.print(rt) {
                Ok(()) => error.exit_code() as u8,
                Err(_) => exit_status(Err(Lost::said_on(&mut rt.stderr()))),
            });
        }
    };
    let Some(file) = matches.get_str("file") else {
        return Ok(USAGE);
    };
    let question = Question {
        file,
        listed: matches.get_flag("pages"),
        counters: matches.get_strs("counter").unwrap_or(&[]),
    };
    Ok(exit_status(hourly_run::run(
        alloc,
        &Disk { rt },
        question,
        &mut rt.stdout(),
        &mut rt.stderr(),
    )))
}

fn main(rt: HostRuntime) -> ExitCode {
    match run(&rt) {
        Ok(status) => ExitCode::from(status),
        // There was no memory to read the words.
        Err(_) => ExitCode::from(exit_status(Err(Lost::said_on(&mut rt.stderr())))),
    }
}
