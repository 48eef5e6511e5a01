// What is asked: which page, and how it stands in the input.
ghost use Rattle.std.specs.Prelude.{◌≡◌};
ghost use Rattle.page_text.specs.Inputs.{read_limit};

use crate::Notation;
use pages::PAGE_SIZE;
use std::alloc::Global;

// So many bytes may the text of a page have.
pub(crate) const TEXT_LIMIT: usize = 65536;

/// A page that can be told.
#[derive(Clone, Copy, Debug, PartialEq, Eq)]
pub enum PageKind {
    /// Page 10h: the error that a halt left.
    Errors,
    /// Page 11h: the counters of what happened on the link.
    Counters,
    /// The page of IDENTIFY DEVICE: what the device is.
    Identity,
}

/// What is asked of an input: which page it is, and how it stands there.
#[derive(Clone, Copy, Debug)]
pub struct Query {
    /// where what is read and what is written are gathered
    pub alloc: Global,
    /// which page it is
    pub page: PageKind,
    /// how it is written in hex; `None` where it stands there as its 512 bytes
    pub notation: Option<Notation>,
}

impl Query {
    // So many bytes are read: one more than there may be, so that an input that is longer shows.
    pub(crate) fn read_limit(self) -> u64
        ensures { result ≡ read_limit self.notation }
    {
        match self.notation {
            None => PAGE_SIZE as u64 + 1,
            Some(_) => TEXT_LIMIT as u64 + 1,
        }
    }
}
