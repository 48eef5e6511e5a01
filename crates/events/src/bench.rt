// What a run keeps between two events.
ghost use Rattle.std.specs.Prelude.{◌≡◌, ◌≤◌, length, take};
ghost use Rattle.device.specs.Lent.{gave, answered};
ghost use Rattle.device.specs.Sealing.{state_of};
ghost use Rattle.device.specs.Step.{Gives};
ghost use Rattle.streams.specs.Gathered.{held_back, gathering, Pushes};
ghost use Rattle.events.specs.Running.{Kept, kept, step_of, after_step, step_told};

use crate::event_bytes::EventBytes;
use crate::plays::make_call;
use crate::telling::{Line, tell};
use device::Sealed;
use frames::DATA_FRAME_LIMIT;
use refusals::Refusal;
use std::io::Write;
use std::marker::Model;
use streams::{Lines, Watched};

/// The device of a run, its medium, and the buffer of its replies. A contract sees these three as what a run keeps.
#[derive(Drop)]
pub(crate) struct Bench<'a> {
    sealed: Sealed,
    medium: &'a mut [u8],
    reply: &'a mut [u8],
    // where the frames of host data are laid
    room: [u8; DATA_FRAME_LIMIT],
}

impl<'a> Model for Bench<'a> {
    ghost Value = { Kept };

    ghost view = { λ b. kept (state_of b.sealed) b.medium.now b.reply.now };
}

impl<'a> Bench<'a> {
    pub(crate) fn new(sealed: Sealed, medium: &'a mut [u8], reply: &'a mut [u8]) -> Bench<'a>
        ensures { result ≡ kept (state_of sealed) medium.old reply.old }
    {
        Bench {
            sealed,
            medium,
            reply,
            room: [0; DATA_FRAME_LIMIT],
        }
    }

    // One event played: how many bytes of replies stand in front of the buffer, or the refusal.
    fn play(&mut self, event: &EventBytes) -> Result<usize, Refusal>
        ensures { Gives (step_of self.old event.now) self.old.reply (gave (answered self.new.device result) self.new.medium self.new.reply) }
    {
        if let Some(frame) = event.frame() {
            return self.sealed.host_frame(frame, self.medium, self.reply);
        }
        make_call(
            &mut self.sealed,
            event.event(),
            &mut self.room,
            self.medium,
            self.reply,
        )
    }

    fn outstanding(&self) -> u32
        ensures { result ≡ self.now.device.status.outstanding }
    {
        self.sealed.state().status.outstanding
    }

    fn replies(&self, len: usize) -> &[u8]
        requires { len ≤ length self.now.reply }
        ensures { result.now ≡ take len self.now.reply }
    {
        &self.reply[..len]
    }

    /// One event played, and its line behind the lines that are gathered.
    pub(crate) fn play_and_tell<W: Write>(
        &mut self,
        traced: bool,
        lines: &mut Lines,
        out: &mut Watched<W>,
        number: u64,
        event: &EventBytes,
    )
        ensures kept { self.new ≡ after_step self.old (step_of self.old event.now) }
        ensures line { Pushes (gathering (W.contents out.old.inner) (held_back lines.old) out.old.failed) (gathering (W.contents out.new.inner) (held_back lines.new) out.new.failed) (step_told traced number (step_of self.old event.now)) }
    {
        let answer = self.play(event);
        let line = Line {
            number,
            refusal: answer.err(),
            outstanding: self.outstanding(),
            replies: self.replies(answer.unwrap_or(0)),
        };
        tell(traced, lines, out, &line)
    }
}
