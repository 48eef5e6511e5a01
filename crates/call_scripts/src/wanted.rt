// What a line of a script is to print.
ghost use Rattle.std.specs.Prelude.{◌≡◌};
ghost use Rattle.std.specs.Option.{option_map};
ghost use Rattle.call_scripts.specs.Wanted.{is_arrow, trimmed, wanted_in, wanted, has_arrow, is_hidden};

use crate::lines::LINE_LIMIT;
use crate::parts::parts_at;
use crate::words::asked_text;

fn is_arrow(text: &[u8]) -> bool
    ensures { result ≡ is_arrow text.now }
{
    text.starts_with(b"->")
}

/// A text without the blanks about it.
pub(crate) fn trimmed(text: &[u8]) -> &[u8]
    ensures { result.now ≡ trimmed text.now }
{
    text.trim_ascii()
}

fn wanted_in(rest: &[u8]) -> Option<&[u8]>
    ensures { option_map (λ text. text.now) result ≡ wanted_in rest.now }
{
    if !is_arrow(rest) {
        return None;
    }
    let (text, _) = parts_at(rest.get(2..)?, b'#');
    Some(trimmed(text))
}

/// What a line is to print: what stands behind `->` and before a comment, without the blanks about it.
#[tactic(auto, unfolding(crate::specs::Wanted::wanted))]
pub(crate) fn wanted(line: &[u8]) -> Option<&[u8]>
    ensures { option_map (λ text. text.now) result ≡ wanted line.now }
{
    if LINE_LIMIT < line.len() {
        return None;
    }
    wanted_in(line.get(asked_text(line).len()..)?)
}

#[tactic(auto, unfolding(crate::specs::Wanted::has_arrow), using(crate::proofs::WordLaws::arrow_next))]
fn has_arrow(text: &[u8]) -> bool
    ensures { result ≡ has_arrow text.now }
{
    for at in 0..text.len() {
        if is_arrow(&text[at..]) {
            return true;
        }
    }
    false
}

/// Whether a comment has a `->`, so that what it asks for is not held.
pub(crate) fn is_hidden(line: &[u8]) -> bool
    ensures { result ≡ is_hidden line.now }
{
    let (_, comment) = parts_at(line, b'#');
    has_arrow(comment)
}
