// A page from a reader, told to a writer.
ghost use Rattle.std.specs.Prelude.{◌≡◌, List, ℕ, None, IfOk, OnOk, OnErr};
ghost use Rattle.std.specs.Io.KnownBytes.{Appends};
ghost use Rattle.page_text.specs.Answers.{stop_text};
ghost use Rattle.page_text.specs.declared.answers.Answer.TheVariants.{Stopped};
ghost use Rattle.page_text.specs.Owed.{Owes};
ghost use Rattle.page_text.specs.Written.{Tells, TellsFront};

use crate::answers::Answer;
use crate::page_bytes::fill_again;
use crate::queries::Query;
use crate::words::Text;
use pages::PAGE_SIZE;
use std::io;
use std::io::{Read, Write};
use streams::put;

// A read failed.
fn write_stop<W: Write>(text: &mut W) -> io::Result<Answer>
    ensures text { OnOk result (Appends (W.contents text.old) (W.contents text.new) stop_text) }
    ensures answer { IfOk result (λ answer. answer ≡ Stopped) }
{
    text.write_all(b"stop\n")?;
    Ok(Answer::Stopped)
}

impl Query {
    // A read that fails is told from an end, for what it keeps from us may be the rest of the page.
    fn gather_bytes<R: Read, W: Write>(self, reader: &mut R, text: &mut W) -> io::Result<Answer>
        requires { self.notation ≡ None }
        ensures { IfOk result (λ answer. (told : List ℕ) × Owes self (R.remaining reader.old) answer told × Appends (W.contents text.old) (W.contents text.new) told) }
    {
        let mut room = [0; PAGE_SIZE + 1];
        let Ok(len) = fill_again(reader, &mut room) else {
            return write_stop(text);
        };
        self.write_input(text, &room[..len])
    }

    // So is memory that runs out for a page's text in hex.
    fn gather_hex<R: Read, W: Write>(self, reader: &mut R, text: &mut W) -> io::Result<Answer>
        ensures { IfOk result (λ answer. (told : List ℕ) × Owes self (R.remaining reader.old) answer told × Appends (W.contents text.old) (W.contents text.new) told) }
    {
        let mut input = Vec::new(self.alloc);
        if reader
            .take(self.read_limit())
            .read_to_end(&mut input)
            .is_err()
        {
            return write_stop(text);
        }
        self.write_input(text, &input)
    }

    // A page that stands there as its bytes needs no memory.
    pub(crate) fn gather<R: Read, W: Write>(
        self,
        reader: &mut R,
        text: &mut W,
    ) -> io::Result<Answer>
        ensures { IfOk result (λ answer. (told : List ℕ) × Owes self (R.remaining reader.old) answer told × Appends (W.contents text.old) (W.contents text.new) told) }
    {
        match self.notation {
            None => self.gather_bytes(reader, text),
            Some(_) => self.gather_hex(reader, text),
        }
    }

    // The text is put together before the first write, which so knows a front of it from all.
    #[tactic(auto, using(crate::proofs::Owing::tells_nothing))]
    pub(crate) fn tell<R: Read, W: Write>(self, reader: &mut R, out: &mut W) -> io::Result<Answer>
        ensures ok { IfOk result (λ answer. Tells (Owes self (R.remaining reader.old)) (W.contents out.old) (W.contents out.new) answer) }
        ensures err { OnErr result (TellsFront (Owes self (R.remaining reader.old)) (W.contents out.old) (W.contents out.new)) }
    {
        let mut text = Text::new();
        let answer = self.gather(reader, &mut text)?;
        put(out, text.as_slice())?;
        Ok(answer)
    }
}
