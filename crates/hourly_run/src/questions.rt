// What is asked of a run.

/// The table of which file, and of which counters.
#[derive(Clone, Copy, Debug)]
pub struct Question<'a> {
    /// the name of the file of samples
    pub file: &'a str,
    /// whether each line names the file of its page; else the page stands in the line, in hex
    pub listed: bool,
    /// the numbers of the counters, each a word of hex digits
    pub counters: &'a [&'a str],
}
