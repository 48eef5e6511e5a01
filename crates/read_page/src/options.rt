// The words of the command line.
use clap::{Arg, ArgAction, ArgMatches, Command};
use page_text::{Notation, PageKind, Query};
use std::alloc::{AllocError, Global};
use version::VERSION;

/// The words that the program takes.
pub(crate) fn command<'a>(alloc: Global) -> Result<Command<'a>, AllocError> {
    let page = Arg::new(alloc, "page")
        .value_name("PAGE")
        .help("10: the error record; 11: the counters; identify: what the device is")
        .required(true)
        .hide_possible_values(true)
        .value_parser(["10", "11", "identify"].as_slice());
    let hex = Arg::new(alloc, "hex")
        .long("hex")
        .help("The page is text: its bytes in hex")
        .action(ArgAction::SetTrue)
        .conflicts_with("words")?;
    let words = Arg::new(alloc, "words")
        .long("words")
        .help("The page is text: words of four hex digits, the low byte of each last")
        .action(ArgAction::SetTrue);
    let files = Arg::new(alloc, "file")
        .value_name("FILE")
        .help("Where pages lie; standard input if none is named")
        .num_args(0..);
    Command::new(alloc, "read_page")
        .version(VERSION)
        .about("Tells a page of 512 bytes in words")
        .after_help(
            "Exit status: 0 told in full (not that the device is well, nor that the page is its own), 1 refused, 2 usage, 3 unread, 4 lines are missing; of several files the greatest.",
        )
        .arg(page)?
        .arg(hex)?
        .arg(words)?
        .arg(files)
}

/// What they ask. `None` cannot come: the command asks for a page.
pub(crate) fn query(alloc: Global, matches: &ArgMatches) -> Option<Query> {
    let page = match matches.get_str("page") {
        Some("10") => PageKind::Errors,
        Some("11") => PageKind::Counters,
        Some("identify") => PageKind::Identity,
        _ => return None,
    };
    let notation = match (matches.get_flag("hex"), matches.get_flag("words")) {
        (true, _) => Some(Notation::Bytes),
        (false, true) => Some(Notation::Words),
        (false, false) => None,
    };
    Some(Query {
        alloc,
        page,
        notation,
    })
}
