// The sixteen counters of page 11h, the SATA PHY event counters, in the order of their numbers, and how many entries are none of them.
ghost use Rattle.std.specs.Prelude.{◌≡◌, ◌+◌, ◌≤◌, ◌++◌, OnOk, OnErr, IfOk};
ghost use Rattle.std.specs.Io.KnownBytes.{Appends};
ghost use Rattle.arrayvec.specs.ArrayVec.{array_vec_len};
ghost use Rattle.refusals.specs.First.{refusal_in};
ghost use Rattle.counters.specs.Rows.{ids};
ghost use Rattle.streams.specs.Fronts.{AppendsFront};
ghost use Rattle.page_text.specs.Counters.{counters_in, shown_text, line_text, lines_text, counters_told, counters_text};
ghost use Rattle.page_text.specs.Given.{WholeTextGiven};

use crate::giving::give_whole;
use crate::words::{
    TEXT_MOST, Text, push, push_number, push_number_line, push_refusal, push_upper,
};
use counters::ROWS;
use pages::CounterValue;
use refusals::Refusal;
use std::io;
use std::io::Write;
use streams::put;

// What a page says of a counter that it was asked for. A value that stands at the top of its width may have had more events.
fn push_shown(text: &mut Text, counter: Option<CounterValue>)
    requires { array_vec_len text.old + 24 ≤ TEXT_MOST }
    ensures bytes { text.new.items ≡ text.old.items ++ shown_text counter }
    ensures len { array_vec_len text.new ≤ array_vec_len text.old + 24 }
{
    match counter {
        None => push(text, b"absent"),
        Some(counter) if counter.is_top() => {
            push_number(text, counter.value);
            push(text, b" top");
        }
        Some(counter) => push_number(text, counter.value),
    }
}

// The line of a counter.
fn push_line(text: &mut Text, number: u16, counter: Option<CounterValue>)
    requires { array_vec_len text.old + 43 ≤ TEXT_MOST }
    ensures bytes { text.new.items ≡ text.old.items ++ line_text (number, counter) }
    ensures len { array_vec_len text.new ≤ array_vec_len text.old + 43 }
{
    push_upper(text, 3, u64::from(number));
    push(text, b"h ");
    push_shown(text, counter);
    push(text, b"\n");
}

fn push_lines(text: &mut Text, counters: &[(u16, Option<CounterValue>); ROWS])
    requires { array_vec_len text.old + 688 ≤ TEXT_MOST }
    ensures bytes { text.new.items ≡ text.old.items ++ lines_text counters.now }
    ensures len { array_vec_len text.new ≤ array_vec_len text.old + 688 }
{
    for (number, counter) in counters {
        push_line(text, *number, *counter);
    }
}

// What the page says of each of the sixteen numbers, unless it refuses one: such a page tells nothing.
fn read_counters(page: &[u8]) -> Result<[(u16, Option<CounterValue>); ROWS], Refusal>
    ensures { result ≡ counters_in page.now ids }
{
    let mut counters = counters::IDENTIFIERS.map(|number| (number, None));
    for (number, counter) in &mut counters {
        *counter = pages::read_counter(page, *number)?;
    }
    Ok(counters)
}

// All that is told is read before anything is laid.
fn read_page(page: &[u8]) -> Result<([(u16, Option<CounterValue>); ROWS], usize), Refusal>
    ensures { result ≡ counters_told page.now }
{
    Ok((read_counters(page)?, pages::count_others(page)?))
}

// The text; and the refusal, where the page is refused.
fn push_counters(text: &mut Text, page: &[u8]) -> Option<Refusal>
    requires { array_vec_len text.old + 716 ≤ TEXT_MOST }
    ensures text { text.new.items ≡ text.old.items ++ counters_text page.now }
    ensures refused { result ≡ refusal_in (counters_told page.now) }
{
    match read_page(page) {
        Ok(told) => {
            let (counters, others) = &told;
            push_lines(text, counters);
            push_number_line(text, b"others ", *others as u64);
            None
        }
        Err(refusal) => {
            push_refusal(text, refusal);
            Some(refusal)
        }
    }
}

/// Writes the sixteen counters of page 11h, a line each, and then how many of its entries are none of them; of a page that
/// is refused the refusal alone, which is handed back.
///
/// # Errors
///
/// The writer's: a front of the text is written then, and not all of it.
pub fn write_counters<W: Write>(out: &mut W, page: &[u8]) -> io::Result<Option<Refusal>>
    ensures text { OnOk result (Appends (W.contents out.old) (W.contents out.new) (counters_text page.now)) }
    ensures refused { IfOk result (λ refusal. refusal ≡ refusal_in (counters_told page.now)) }
    ensures lost { OnErr result (AppendsFront (W.contents out.old) (W.contents out.new) (counters_text page.now)) }
{
    let mut text = Text::new();
    let refusal = push_counters(&mut text, page);
    put(out, text.as_slice())?;
    Ok(refusal)
}

/// Lays what [`write_counters`] writes in front of a buffer, and hands back its length; where it has no room, its front, as
/// far as the buffer goes, and 0. Every other byte of the buffer stays.
pub fn put_counters(out: &mut [u8], page: &[u8]) -> usize
    ensures { WholeTextGiven (counters_text page.now) out.old result out.new }
{
    let mut text = Text::new();
    push_counters(&mut text, page);
    give_whole(out, text.as_slice())
}
