// The fields of page 10h, each by its name, and how many bytes have a bit set that is neither theirs nor the sum's.
ghost use Rattle.std.specs.Prelude.{◌≡◌, ◌+◌, ◌≤◌, ◌++◌, OnOk, OnErr, IfOk};
ghost use Rattle.std.specs.Io.KnownBytes.{Appends};
ghost use Rattle.arrayvec.specs.ArrayVec.{array_vec_len};
ghost use Rattle.refusals.specs.First.{refusal_in};
ghost use Rattle.streams.specs.Fronts.{AppendsFront};
ghost use Rattle.page_text.specs.Fields.{tag_text, status_text, task_text, log_text, other_bytes_text, log_told, fields_text};
ghost use Rattle.page_text.specs.Given.{WholeTextGiven};

use crate::giving::give_whole;
use crate::words::{TEXT_MOST, Text, push_number_line, push_refusal, push_upper_line};
use frames::Task;
use pages::ErrorLog;
use refusals::Refusal;
use std::io;
use std::io::Write;
use streams::put;

#[tactic(auto, unfolding(crate::specs::Fields::tag_text))]
fn push_tag(text: &mut Text, log: ErrorLog)
    requires { array_vec_len text.old + 49 ≤ TEXT_MOST }
    ensures bytes { text.new.items ≡ text.old.items ++ tag_text log }
    ensures len { array_vec_len text.new ≤ array_vec_len text.old + 49 }
{
    push_number_line(text, b"NQ ", u64::from(log.nq));
    push_number_line(text, b"tag ", u64::from(log.tag));
}

#[tactic(auto, unfolding(crate::specs::Fields::status_text))]
fn push_status(text: &mut Text, log: ErrorLog)
    requires { array_vec_len text.old + 49 ≤ TEXT_MOST }
    ensures bytes { text.new.items ≡ text.old.items ++ status_text log }
    ensures len { array_vec_len text.new ≤ array_vec_len text.old + 49 }
{
    push_upper_line(text, b"status ", 2, u64::from(log.status));
    push_upper_line(text, b"error ", 2, u64::from(log.error));
}

#[tactic(auto, unfolding(crate::specs::Fields::task_text))]
fn push_task(text: &mut Text, task: Task)
    requires { array_vec_len text.old + 71 ≤ TEXT_MOST }
    ensures bytes { text.new.items ≡ text.old.items ++ task_text task }
    ensures len { array_vec_len text.new ≤ array_vec_len text.old + 71 }
{
    push_upper_line(text, b"LBA ", 12, task.lba);
    push_upper_line(text, b"device ", 2, u64::from(task.device));
    push_upper_line(text, b"count ", 4, u64::from(task.count));
}

#[tactic(auto, unfolding(crate::specs::Fields::log_text))]
fn push_log(text: &mut Text, log: ErrorLog)
    requires { array_vec_len text.old + 169 ≤ TEXT_MOST }
    ensures bytes { text.new.items ≡ text.old.items ++ log_text log }
    ensures len { array_vec_len text.new ≤ array_vec_len text.old + 169 }
{
    push_tag(text, log);
    push_status(text, log);
    push_task(text, log.task);
}

fn push_other_bytes(text: &mut Text, others: usize)
    requires { array_vec_len text.old + 33 ≤ TEXT_MOST }
    ensures { text.new.items ≡ text.old.items ++ other_bytes_text others }
{
    push_number_line(text, b"other bytes ", others as u64);
}

// All that is told is read before anything is laid.
fn read_page(page: &[u8]) -> Result<(ErrorLog, usize), Refusal>
    ensures { result ≡ log_told page.now }
{
    Ok((pages::read_log(page)?, pages::count_other_bytes(page)?))
}

// The text; and the refusal, where the page is refused.
fn push_fields(text: &mut Text, page: &[u8]) -> Option<Refusal>
    requires { array_vec_len text.old + 202 ≤ TEXT_MOST }
    ensures text { text.new.items ≡ text.old.items ++ fields_text page.now }
    ensures refused { result ≡ refusal_in (log_told page.now) }
{
    match read_page(page) {
        Ok((log, others)) => {
            push_log(text, log);
            push_other_bytes(text, others);
            None
        }
        Err(refusal) => {
            push_refusal(text, refusal);
            Some(refusal)
        }
    }
}

/// Writes the fields of page 10h, a line each, and then how many of its bytes have a bit set that is none of theirs; of a
/// page that is refused the refusal alone, which is handed back.
///
/// # Errors
///
/// The writer's: a front of the text is written then, and not all of it.
pub fn write_fields<W: Write>(out: &mut W, page: &[u8]) -> io::Result<Option<Refusal>>
    ensures text { OnOk result (Appends (W.contents out.old) (W.contents out.new) (fields_text page.now)) }
    ensures refused { IfOk result (λ refusal. refusal ≡ refusal_in (log_told page.now)) }
    ensures lost { OnErr result (AppendsFront (W.contents out.old) (W.contents out.new) (fields_text page.now)) }
{
    let mut text = Text::new();
    let refusal = push_fields(&mut text, page);
    put(out, text.as_slice())?;
    Ok(refusal)
}

/// Lays what [`write_fields`] writes in front of a buffer, and hands back its length; where it has no room, its front, as far
/// as the buffer goes, and 0. Every other byte of the buffer stays.
pub fn put_fields(out: &mut [u8], page: &[u8]) -> usize
    ensures { WholeTextGiven (fields_text page.now) out.old result out.new }
{
    let mut text = Text::new();
    push_fields(&mut text, page);
    give_whole(out, text.as_slice())
}
