// Pages of named files, told to a writer.
ghost use Rattle.std.specs.Prelude.{◌≡◌, ◌++◌, List, ℕ, IfOk, OnOk, OnErr};
ghost use Rattle.page_text.specs.Written.{Tells, TellsFront};
ghost use Rattle.page_text.specs.Sections.{OwesFile};

use crate::answers::Answer;
use crate::queries::Query;
use crate::shelf::Shelf;
use std::io;
use std::io::Write;
use streams::put;

// A name, and what is said of it.
fn write_line(text: &mut Vec<u8>, name: &str, said: &[u8]) -> io::Result<()>
    ensures { OnOk result (text.new.items ≡ text.old.items ++ name.now ++ said.now) }
{
    text.write_all(name.as_bytes())?;
    text.write_all(said)
}

impl Query {
    // The section of a file; `many` says that it is one of several.
    fn gather_file<S: Shelf>(
        self,
        shelf: &S,
        name: &str,
        many: bool,
        text: &mut Vec<u8>,
    ) -> io::Result<Answer>
        ensures { IfOk result (λ answer. (told : List ℕ) × OwesFile self many (S.holds shelf.now) name.now answer told × (text.new.items ≡ text.old.items ++ told)) }
    {
        let Ok(mut page) = shelf.open(name) else {
            write_line(text, name, b": unread\n")?;
            return Ok(Answer::Unopened);
        };
        if many {
            write_line(text, name, b":\n")?;
        }
        self.gather(&mut page, text)
    }

    // All of a file's section, or a front of it.
    #[tactic(auto, using(crate::proofs::Filing::file_nothing))]
    pub(crate) fn tell_file<S: Shelf, W: Write>(
        self,
        shelf: &S,
        out: &mut W,
        name: &str,
        many: bool,
    ) -> io::Result<Answer>
        ensures ok { IfOk result (λ answer. Tells (OwesFile self many (S.holds shelf.now) name.now) (W.contents out.old) (W.contents out.new) answer) }
        ensures err { OnErr result (TellsFront (OwesFile self many (S.holds shelf.now) name.now) (W.contents out.old) (W.contents out.new)) }
    {
        let mut text = Vec::new(self.alloc);
        let answer = self.gather_file(shelf, name, many, &mut text)?;
        put(out, &text)?;
        Ok(answer)
    }
}
