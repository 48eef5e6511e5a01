// Runs a script of calls: standard input to standard output. `--check FILE..` tells which lines of scripts print something else than stands
// behind their `->`, or are at fault. What is printed and said, and the status, is `call_scripts`'; here the words of the command line are
// read, and each word behind `--check` is handed on as it stands.
#![tactic(auto)]

use call_scripts::{check_scripts, run_script};
use page_text::Disk;
use std::io::ErrorKind;
use std::process::ExitCode;
use std::{env, io};
use streams::complain;
use version::VERSION;

// The words ask for nothing.
const USAGE: u8 = 2;

// Lines are missing.
const LINES_MISSING: u8 = 4;

fn tell_version(rt: &HostRuntime) -> u8 {
    match println!(rt; "run_calls {VERSION}") {
        Ok(()) => 0,
        Err(_) => {
            let _ = complain(&mut rt.stderr());
            LINES_MISSING
        }
    }
}

fn usage(rt: &HostRuntime) -> u8 {
    let _ = eprintln!(rt; "usage: run_calls < SCRIPT, or run_calls --check SCRIPT..");
    USAGE
}

fn no_memory(rt: &HostRuntime) -> u8 {
    let _ = eprintln!(rt; "run_calls: no memory: lines are missing");
    LINES_MISSING
}

// What the words behind the program's name ask for.
fn run(rt: &HostRuntime, words: &[&str]) -> u8 {
    let (alloc, out, errors) = (rt.alloc(), &mut rt.stdout(), &mut rt.stderr());
    match words {
        [] => run_script(alloc, rt.stdin(), out, errors).exit_status(),
        ["--version"] => tell_version(rt),
        ["--check", _, ..] => check_scripts(
            alloc,
            &Disk { rt },
            &words[1..],
            out,
            errors,
        ).exit_status(),
        _ => usage(rt),
    }
}

// An `Err` is of memory, or of a word that is no text.
fn read_words(rt: &HostRuntime) -> io::Result<u8> {
    let words: Vec<String> = env::args(rt)?.skip(1).collect(rt.alloc())?;
    let words: Vec<&str> = words.iter().map(|word| word.as_str()).collect(rt.alloc())?;
    Ok(run(rt, &words))
}

fn main(rt: HostRuntime) -> ExitCode {
    ExitCode::from(match read_words(&rt) {
        Ok(status) => status,
        Err(failed) if failed.kind() == ErrorKind::OutOfMemory => no_memory(&rt),
        Err(_) => usage(&rt),
    })
}
