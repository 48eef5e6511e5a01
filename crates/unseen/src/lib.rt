// Contents do not show in what whole runs leave to be handed out: sequences of calls from power-on, and the lines of the event program.
// There is no code here, and the contract is the sentence. What contents are, and what is told of one call: crate `contents`.
#![tactic(auto)]

mod runs;

pub use runs::{lines_unseen, sequences_unseen};
