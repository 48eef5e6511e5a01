// The words of the command line.
use clap::{Arg, ArgAction, Command};
use std::alloc::{AllocError, Global};
use version::VERSION;

/// The words that the program takes.
pub(crate) fn command<'a>(alloc: Global) -> Result<Command<'a>, AllocError> {
    let pages = Arg::new(alloc, "pages")
        .long("pages")
        .help(
            "FILE is a list, a line each: the hour, a blank, the name of the file that holds the bytes of the page",
        )
        .action(ArgAction::SetTrue);
    let file = Arg::new(alloc, "file")
        .value_name("FILE")
        .help(
            "Samples, a line each: the hour in decimal, a blank, the 512 bytes of page 11h in hex",
        )
        .required(true);
    let counters = Arg::new(alloc, "counter")
        .value_name("COUNTER")
        .help("Numbers of counters in hex, 1 to FFF; each has a row an hour")
        .num_args(0..);
    Command::new(alloc, "hourly")
        .version(VERSION)
        .about("Tells what counters counted in each hour, as comma-separated text")
        .after_help(
            "An empty field is a gap, and no 0. Exit status: 0 the table (not that the device is well), 1 refused, 2 usage, 3 a line that is no sample, or a file unread, 4 lines are missing.",
        )
        .arg(pages)?
        .arg(file)?
        .arg(counters)
}
