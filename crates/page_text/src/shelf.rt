// A shelf of pages that have names, as a folder is.
ghost use Rattle.std.specs.Prelude.{Option, List, ℕ};
ghost use Rattle.page_text.specs.Opened.{opened, Agrees};

use std::io;
use std::io::Read;

/// Where the pages that are named lie.
pub trait Shelf {
    /// What a named page is read from.
    type Page: Read + Drop;

    // What is known of a name: that it cannot be opened, or the bytes behind it.
    ghost holds: { Self → List ℕ → Option (Option (List ℕ)) };

    /// The page of a name, to be read from its first byte on.
    ///
    /// # Errors
    /// Where it cannot be opened.
    fn open(&self, name: &str) -> io::Result<Self::Page>
        ensures { Agrees (holds self.now name.now) (opened Self.Page.remaining result) };
}
