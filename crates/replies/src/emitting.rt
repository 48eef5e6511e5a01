// The replies of an act, each behind the ones before.
ghost use Rattle.std.specs.Prelude.{◌≡◌, false, [], ◌∷◌, leb, length};
ghost use Rattle.std.specs.Result.{result_unwrap_or};
ghost use Rattle.bits.specs.Pick.{pick};
ghost use Rattle.replies.specs.Replies.{page10_of, page11_of, identity_of, log_replies, open_replies, replies_of, RepliesGiven};
ghost use Rattle.replies.specs.Framed.{framed};
ghost use Rattle.replies.specs.Sends.{Sends};
ghost use Rattle.replies.specs.StateShown.{state_lent};

use crate::reply::Reply;
use crate::shown::{Shown, log_of};
use frames::{DATA_FRAME_LIMIT, Task};
use pages::PAGE_SIZE;
use refusals::Refusal;
use rules::{Act, CountersRead, Queued};

type Page = [u8; PAGE_SIZE];

// The bytes of a page; none of one that was turned down.
fn page_bytes(page: &Result<Page, Refusal>) -> &[u8]
    ensures { result.now ≡ result_unwrap_or page.now [] }
{
    match page {
        Ok(bytes) => bytes,
        Err(_) => &[],
    }
}

// Each function from here on writes its replies to the front of the room that it is lent, one behind the other, and answers
// how many bytes they are.
//
// One reply, or nothing where it is turned down. It is inlined where the reply's kind is known, and its bytes have one size.
#[inline(always)]
fn put(room: &mut [u8], reply: Reply<'_>) -> usize
    ensures { Sends (framed reply.entry ∷ []) room.old result room.new }
{
    reply.write(room).unwrap_or(0)
}

#[inline(always)]
#[tactic(auto, using(crate::proofs::Sending::sends_nothing))]
fn put_if(room: &mut [u8], on: bool, reply: Reply<'_>) -> usize
    ensures { Sends (pick on (framed reply.entry ∷ []) []) room.old result room.new }
{
    if on { put(room, reply) } else { 0 }
}

// DMA Setup, and for a write an Activate.
fn put_open(room: &mut [u8], queued: &Queued) -> usize
    ensures { Sends (open_replies queued.now) room.old result room.new }
{
    let mut len = put(room, Reply::setup(queued));
    len += put_if(&mut room[len..], queued.entry.write, Reply::Activate);
    len
}

// Sweep, PIO Setup and page.
fn put_log(room: &mut [u8], sweep: bool, task: Task, page: Result<Page, Refusal>) -> usize
    ensures { Sends (log_replies sweep task (result_unwrap_or page [])) room.old result room.new }
{
    let mut len = put_if(room, sweep, Reply::sweep());
    len += put(&mut room[len..], Reply::pio(task));
    len += put(&mut room[len..], Reply::Data(page_bytes(&page)));
    len
}

// Page 10h, page 11h, and that of IDENTIFY DEVICE. Each has a function that is not inlined: every reply would pay for the room of a page's bytes.
#[inline(never)]
#[tactic(auto, using(crate::proofs::Sending::page_bytes_pick))]
fn put_errors(room: &mut [u8], task: &Task, shown: &Shown<'_>) -> usize
    ensures { Sends (log_replies shown.now.halted task.now (page10_of shown.now.errors.now)) room.old result room.new }
{
    put_log(room, shown.halted, *task, log_of(shown.errors).page())
}

#[inline(never)]
#[tactic(auto, using(crate::proofs::Sending::page_bytes_pick))]
fn put_counters(room: &mut [u8], log: &CountersRead, shown: &Shown<'_>) -> usize
    ensures { Sends (log_replies false log.now.task (page11_of shown.now.mask shown.now.values.now)) room.old result room.new }
{
    let page = pages::counters_page(shown.mask, shown.values);
    put_log(room, false, log.task, page)
}

#[inline(never)]
#[tactic(auto, using(crate::proofs::Sending::page_bytes_pick))]
fn put_identity(room: &mut [u8], task: &Task, shown: &Shown<'_>) -> usize
    ensures { Sends (log_replies false task.now (identity_of shown.now.identity)) room.old result room.new }
{
    put_log(room, false, *task, shown.identity.page())
}

// Inlined, with `emit`, where the act is made.
#[inline(always)]
#[tactic(auto, using(crate::proofs::Sending::sends_nothing), unfolding(crate::specs::Replies::replies_of))]
fn put_all(room: &mut [u8], act: &Act, shown: &Shown<'_>, part: &[u8]) -> usize
    ensures { Sends (replies_of (state_lent shown.now) part.now act.now) room.old result room.new }
{
    match act {
        Act::Bad(bad) => put(room, Reply::bad(bad.error, bad.task)),
        Act::BadAndHalt(fault) => put(room, Reply::bad(fault.error, Task::from(fault.echo))),
        Act::Accept(queued) => put(room, Reply::good(Task::from(queued.entry.echo))),
        Act::Log10(task) => put_errors(room, task, shown),
        Act::Log11(log) => put_counters(room, log, shown),
        Act::Identify(task) => put_identity(room, task, shown),
        Act::Release | Act::Renew => put(room, Reply::signature()),
        Act::Store(moved) => put_if(room, !moved.last, Reply::Activate),
        Act::Open(queued) => put_open(room, queued),
        Act::Send(_) => put(room, Reply::Data(part)),
        Act::Finish(set) => put(room, Reply::finish(*set)),
        Act::Media(fault) => put(room, Reply::media(fault.error)),
        Act::Nothing | Act::Reset | Act::ZeroCounters | Act::Count(_) => 0,
    }
}

/// The replies of an act, in front of `reply`, and how many bytes they are; none where `reply` is under the 8,196 bytes that
/// every call which replies asks for.
#[inline(always)]
#[tactic(auto, unfolding(crate::specs::Replies::sent_all, frames::specs::Cut::joined_bytes), using(crate::proofs::Room::replies_room))]
pub fn emit(reply: &mut [u8], act: &Act, shown: &Shown<'_>, part: &[u8]) -> usize
    ensures { RepliesGiven (pick (leb 8196 (length reply.old)) (replies_of (state_lent shown.now) part.now act.now) []) reply.old result reply.new }
{
    if reply.len() < DATA_FRAME_LIMIT {
        return 0;
    }
    put_all(reply, act, shown, part)
}
