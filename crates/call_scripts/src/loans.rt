// What a call is lent.

/// How much a call is lent.
#[derive(Clone, Copy, Debug, PartialEq, Eq)]
pub(crate) struct Loan {
    /// bytes of the medium
    pub(crate) medium: usize,
    /// bytes of the reply buffer
    pub(crate) reply: usize,
}
