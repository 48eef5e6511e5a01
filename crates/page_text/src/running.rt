// A run: the page of standard input, or those of named files.
ghost use Rattle.std.specs.Prelude.{IfOk, OnErr, map};
ghost use Rattle.page_text.specs.Runs.{WritesFiles, LosesFiles, Writes, Loses, Ran};

use crate::ends::Lost;
use crate::queries::Query;
use crate::shelf::Shelf;
use std::io;
use std::io::{Read, Write};

impl Query {
    // The sections of the files in their order; the greatest of their statuses.
    fn tell_files<S: Shelf, W: Write>(
        self,
        shelf: &S,
        names: &[&str],
        out: &mut W,
    ) -> io::Result<u8>
        ensures ok { IfOk result (λ status. WritesFiles self (S.holds shelf.now) (map (λ name. name.now) names.now) (W.contents out.old) (W.contents out.new) status) }
        ensures err { OnErr result (LosesFiles self (S.holds shelf.now) (map (λ name. name.now) names.now) (W.contents out.old) (W.contents out.new)) }
    {
        let many = 1 < names.len();
        let mut worst: u8 = 0;
        for name in names {
            let answer = self.tell_file(shelf, out, name, many)?;
            worst = worst.max(answer.status());
        }
        Ok(worst)
    }

    fn tell_all<S: Shelf, R: Read, W: Write>(
        self,
        shelf: &S,
        names: &[&str],
        reader: &mut R,
        out: &mut W,
    ) -> io::Result<u8>
        ensures ok { IfOk result (λ status. Writes self (S.holds shelf.now) (map (λ name. name.now) names.now) (R.remaining reader.old) (W.contents out.old) (W.contents out.new) status) }
        ensures err { OnErr result (Loses self (S.holds shelf.now) (map (λ name. name.now) names.now) (R.remaining reader.old) (W.contents out.old) (W.contents out.new)) }
    {
        if names.is_empty() {
            return Ok(self.tell(reader, out)?.status());
        }
        self.tell_files(shelf, names, out)
    }

    /// Tells the page of each named file, or that of `reader` where none is named, and says on `errors` where lines are
    /// missing. Hands back the greatest of the pages' statuses: 0 told in full, 1 refused, 3 unread.
    ///
    /// # Errors
    /// Where not all could be written.
    pub fn run<S: Shelf, R: Read, W: Write, E: Write>(
        self,
        shelf: &S,
        names: &[&str],
        reader: &mut R,
        out: &mut W,
        errors: &mut E,
    ) -> Result<u8, Lost>
        ensures { Ran self (S.holds shelf.now) (map (λ name. name.now) names.now) (R.remaining reader.old) (W.contents out.old) (W.contents out.new) (E.contents errors.old) (E.contents errors.new) result }
    {
        match self.tell_all(shelf, names, reader, out) {
            Ok(status) => Ok(status),
            Err(_) => Err(Lost::said_on(errors)),
        }
    }
}
