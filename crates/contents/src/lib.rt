// Contents do not show: medium bytes, the payloads of host data, and what a reply buffer held. Nothing that a call leaves to be handed out tells of them, but the payload that a send replies.
// There is no code here, and the contract is the sentence. Of whole sequences of calls, and of the lines of the event program: crate `unseen`.
#![tactic(auto)]

mod calls;

pub use calls::contents_unseen;
