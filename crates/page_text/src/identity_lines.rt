// What a page of IDENTIFY DEVICE tells: how many commands it queues, and how many sectors it has.
ghost use Rattle.std.specs.Prelude.{◌≡◌, ◌+◌, ◌≤◌, ◌++◌, length, codes, OnOk, OnErr, IfOk};
ghost use Rattle.std.specs.Io.KnownBytes.{Appends};
ghost use Rattle.arrayvec.specs.ArrayVec.{array_vec_len};
ghost use Rattle.refusals.specs.First.{refusal_in};
ghost use Rattle.identity.specs.Read.{read_identity};
ghost use Rattle.streams.specs.Fronts.{AppendsFront};
ghost use Rattle.page_text.specs.Identity.{number_text, queue_text, sectors_text, lines_of, identified_text};

use crate::words::{TEXT_MOST, Text, push, push_number, push_refusal};
use identity::Identified;
use refusals::Refusal;
use std::io;
use std::io::Write;
use streams::put;

// A number, or that the page does not tell it.
fn push_told(text: &mut Text, number: Option<u64>)
    requires { array_vec_len text.old + 20 ≤ TEXT_MOST }
    ensures bytes { text.new.items ≡ text.old.items ++ number_text number }
    ensures len { array_vec_len text.new ≤ array_vec_len text.old + 20 }
{
    match number {
        None => push(text, b"untold"),
        Some(number) => push_number(text, number),
    }
}

fn push_told_line(text: &mut Text, label: &[u8], number: Option<u64>)
    requires { array_vec_len text.old + length label.now + 21 ≤ TEXT_MOST }
    ensures bytes { text.new.items ≡ text.old.items ++ (label.now ++ (number_text number ++ codes "\n")) }
    ensures len { array_vec_len text.new ≤ array_vec_len text.old + length label.now + 21 }
{
    push(text, label);
    push_told(text, number);
    push(text, b"\n");
}

#[tactic(auto, unfolding(crate::specs::Identity::queue_text))]
fn push_queue(text: &mut Text, queue: Option<u64>)
    requires { array_vec_len text.old + 33 ≤ TEXT_MOST }
    ensures bytes { text.new.items ≡ text.old.items ++ queue_text queue }
    ensures len { array_vec_len text.new ≤ array_vec_len text.old + 33 }
{
    push_told_line(text, b"queue depth ", queue);
}

#[tactic(auto, unfolding(crate::specs::Identity::sectors_text))]
fn push_sectors(text: &mut Text, capacity: Option<u64>)
    requires { array_vec_len text.old + 29 ≤ TEXT_MOST }
    ensures { text.new.items ≡ text.old.items ++ sectors_text capacity }
{
    push_told_line(text, b"sectors ", capacity);
}

fn push_lines(text: &mut Text, told: Identified)
    requires { array_vec_len text.old + 62 ≤ TEXT_MOST }
    ensures { text.new.items ≡ text.old.items ++ lines_of told }
{
    push_queue(text, told.queue.map(u64::from));
    push_sectors(text, told.capacity);
}

// The text; and the refusal, where the page is refused.
fn push_identified(text: &mut Text, page: &[u8]) -> Option<Refusal>
    requires { array_vec_len text.old + 62 ≤ TEXT_MOST }
    ensures text { text.new.items ≡ text.old.items ++ identified_text page.now }
    ensures refused { result ≡ refusal_in (read_identity page.now) }
{
    match identity::read_identity(page) {
        Ok(told) => {
            push_lines(text, told);
            None
        }
        Err(refusal) => {
            push_refusal(text, refusal);
            Some(refusal)
        }
    }
}

/// Writes what a page of IDENTIFY DEVICE tells, a line each; of a page that is refused the refusal alone, which is handed
/// back.
///
/// # Errors
///
/// The writer's: a front of the text is written then, and not all of it.
pub fn write_identified<W: Write>(out: &mut W, page: &[u8]) -> io::Result<Option<Refusal>>
    ensures text { OnOk result (Appends (W.contents out.old) (W.contents out.new) (identified_text page.now)) }
    ensures refused { IfOk result (λ refusal. refusal ≡ refusal_in (read_identity page.now)) }
    ensures lost { OnErr result (AppendsFront (W.contents out.old) (W.contents out.new) (identified_text page.now)) }
{
    let mut text = Text::new();
    let refusal = push_identified(&mut text, page);
    put(out, text.as_slice())?;
    Ok(refusal)
}
