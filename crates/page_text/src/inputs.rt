// The page that was read.
ghost use Rattle.std.specs.Prelude.{◌≡◌, OnOk, IfOk};
ghost use Rattle.std.specs.Io.KnownBytes.{Appends};
ghost use Rattle.page_text.specs.Answers.{text_of, refusal_of, answer_by};
ghost use Rattle.page_text.specs.Inputs.{text_page};
ghost use Rattle.page_text.specs.Owed.{owed, told};

use crate::Notation;
use crate::answers::Answer;
use crate::queries::{PageKind, Query, TEXT_LIMIT};
use pages::PAGE_SIZE;
use refusals::Refusal;
use std::io;
use std::io::Write;

// The page that a text tells in hex, unless the text is too long.
#[tactic(auto, unfolding(crate::specs::Inputs::text_page))]
fn text_page(text: &[u8], notation: Notation) -> Option<[u8; PAGE_SIZE]>
    ensures { result ≡ text_page notation text.now }
{
    if TEXT_LIMIT < text.len() {
        return None;
    }
    crate::parse_page(text, notation)
}

// The text of a page; and the refusal, where it is refused.
#[tactic(auto, unfolding(crate::specs::Answers::text_of, crate::specs::Answers::refusal_of))]
fn write_text<W: Write>(out: &mut W, which: PageKind, page: &[u8]) -> io::Result<Option<Refusal>>
    ensures text { OnOk result (Appends (W.contents out.old) (W.contents out.new) (text_of which page.now)) }
    ensures refused { IfOk result (λ refusal. refusal ≡ refusal_of which page.now) }
{
    match which {
        PageKind::Errors => crate::write_fields(out, page),
        PageKind::Counters => crate::write_counters(out, page),
        PageKind::Identity => crate::write_identified(out, page),
    }
}

fn write_page<W: Write>(out: &mut W, which: PageKind, page: &[u8]) -> io::Result<Answer>
    ensures text { OnOk result (Appends (W.contents out.old) (W.contents out.new) (text_of which page.now)) }
    ensures answer { IfOk result (λ answer. answer ≡ answer_by (refusal_of which page.now)) }
{
    match write_text(out, which, page)? {
        None => Ok(Answer::Told),
        Some(_) => Ok(Answer::Refused),
    }
}

impl Query {
    // What is told of an input that was read.
    #[tactic(auto, unfolding(crate::specs::Owed::owed))]
    pub(crate) fn write_input<W: Write>(self, out: &mut W, input: &[u8]) -> io::Result<Answer>
        ensures text { OnOk result (Appends (W.contents out.old) (W.contents out.new) (told self input.now)) }
        ensures answer { IfOk result (λ answer. answer ≡ (owed self input.now).0) }
    {
        let Some(notation) = self.notation else {
            return write_page(out, self.page, input);
        };
        let Some(page) = text_page(input, notation) else {
            out.write_all(b"unread\n")?;
            return Ok(Answer::NotAPage);
        };
        write_page(out, self.page, &page)
    }
}
