// What a host frame makes the device do: the first rule that holds.
ghost use Rattle.std.specs.Prelude.{◌≡◌, eqb, Ok};
ghost use Rattle.frames.specs.declared.shapes.Frame.TheVariants.{Host, Data, Bist};
ghost use Rattle.rules.specs.Decide.{bad_does, queued_act, log_page, page_asked, other_act, control_act, register_act};
ghost use Rattle.device_state.specs.State.{echo_of};
ghost use Rattle.rules.specs.Act.{kind_act, heard_act};

use crate::acts::{Act, BadReply, CountersRead, Fault, Queued};
use crate::command::Command;
use crate::facts::{Facts, next_move};
use crate::{Bad, PageAsked, TagNamed};
use device_state::{Echo, Entry, Sectors};
use frames::{Frame, HostReg, LogPage, Task};
use refusals::{Refusal, check};

// A bad command: answered, and if it halts, for its tag if it was queued.
fn bad_act(host: HostReg, tag: Option<u8>, bad: Bad) -> Act
    ensures { result ≡ bad_does host tag bad }
{
    match bad {
        Bad::Only(error) => Act::Bad(BadReply {
            error: error.byte(),
            task: host.task,
        }),
        Bad::Halts(error) => Act::BadAndHalt(Fault {
            tag,
            error: error.byte(),
            echo: Echo::from(host.task),
        }),
    }
}

// The page that a well-formed READ LOG EXT asks for.
#[tactic(auto, unfolding(crate::specs::Decide::log_page, device_state::specs::State::echo_of))]
fn log_page(task: Task) -> Option<LogPage>
    ensures { result ≡ log_page 0x2F (echo_of task) }
{
    let [page, b5, _, _, b9, ..] = task.lba.to_le_bytes();
    if b5 == 0 && b9 == 0 && task.count == 1 {
        return LogPage::from_number(page);
    }
    None
}

impl Facts {
    // The rules of a queued command, a write or a read.
    #[tactic(auto, unfolding(crate::specs::Decide::queued_act))]
    fn queued_act(&self, host: HostReg, write: bool) -> Act
        requires { write ≡ eqb host.command 0x61 }
        ensures { result ≡ queued_act self.now host }
    {
        let tag = frames::tag_of(host.task.count);
        let count = frames::sectors_of(host.features, host.features_high);
        let named = TagNamed {
            tag,
            busy: self.status.is_outstanding(u32::from(tag)),
        };
        let sectors = Sectors {
            first: host.task.lba,
            count,
        };
        let rule = crate::queued_rule(
            self.status.halted,
            self.settings.depth,
            named,
            self.settings.capacity,
            sectors,
        );
        match rule {
            Err(bad) => bad_act(host, Some(tag), bad),
            Ok(()) => {
                let entry = Entry {
                    write,
                    // the range was not past the capacity, which is a u32
                    first: host.task.lba as u32,
                    count,
                    moved: 0,
                    features: host.features,
                    features_high: host.features_high,
                    echo: Echo::from(host.task),
                };
                Act::Accept(Queued { tag, entry })
            }
        }
    }

    // Any other command, with the page that it asks for, if it asks for one.
    #[tactic(auto, unfolding(crate::specs::Decide::other_act))]
    fn other_act(&self, host: HostReg, page: Option<PageAsked>) -> Act
        requires { page ≡ page_asked host }
        ensures { result ≡ other_act self.now host }
    {
        match crate::other_rule(self.status.halted, page, self.status.outstanding != 0) {
            Err(bad) => bad_act(host, None, bad),
            Ok(PageAsked::Log(LogPage::Errors)) => Act::Log10(host.task),
            Ok(PageAsked::Log(LogPage::Counters)) => Act::Log11(CountersRead {
                zero: crate::log_zeroes(host.features),
                task: host.task,
            }),
            Ok(PageAsked::Identity) => Act::Identify(host.task),
        }
    }

    // A control frame.
    #[tactic(auto, unfolding(crate::specs::Decide::control_act))]
    fn control_act(&self, host: HostReg) -> Act
        ensures { result ≡ control_act self.now host }
    {
        if frames::srst(host.control) {
            return Act::Reset;
        }
        if self.status.held {
            return Act::Release;
        }
        Act::Nothing
    }

    // A register frame at its time: a control frame, or a command.
    #[tactic(auto, unfolding(crate::specs::Decide::register_act, crate::specs::Decide::log_page))]
    fn register_act(&self, host: HostReg) -> Act
        ensures { result ≡ register_act self.now host }
    {
        if !host.command_bit {
            return self.control_act(host);
        }
        match Command::from_byte(host.command) {
            Some(Command::ReadFpdmaQueued) => self.queued_act(host, false),
            Some(Command::WriteFpdmaQueued) => self.queued_act(host, true),
            Some(Command::ReadLogExt) => {
                self.other_act(host, log_page(host.task).map(PageAsked::Log))
            }
            Some(Command::IdentifyDevice) => self.other_act(host, Some(PageAsked::Identity)),
            None => self.other_act(host, None),
        }
    }

    // 27h.
    #[tactic(auto, unfolding(crate::specs::Decide::frame_act, crate::specs::Tests::wrong_kind, crate::specs::Tests::wrong_time, crate::specs::Tests::wrong_size, refusals::specs::First::first_of))]
    fn host_act(&self, host: HostReg) -> Result<Act, Refusal>
        ensures { result ≡ kind_act self.now (Ok (Host host)) }
    {
        if host.command_bit && (self.status.held || self.status.is_link_busy()) {
            return Err(Refusal::WrongTime);
        }
        Ok(self.register_act(host))
    }

    // 46h: host data in a write phase.
    #[tactic(auto, unfolding(crate::specs::Decide::frame_act, crate::specs::Tests::wrong_kind, crate::specs::Tests::wrong_time, crate::specs::Tests::wrong_size, crate::specs::Positions::move_of, refusals::specs::First::first_of))]
    fn data_act(&self, size: usize) -> Result<Act, Refusal>
        ensures { result ≡ kind_act self.now (Ok (Data size)) }
    {
        let Some(tag) = self.open_phase(true) else {
            return Err(Refusal::WrongTime);
        };
        if crate::is_too_long(self.entry.progress(), size) {
            return Err(Refusal::TooLong);
        }
        Ok(Act::Store(next_move(tag, self.entry, size)))
    }

    // 58h.
    #[tactic(auto, unfolding(crate::specs::Decide::frame_act, crate::specs::Tests::wrong_kind, crate::specs::Tests::wrong_time, crate::specs::Tests::wrong_size, refusals::specs::First::first_of))]
    fn bist_act(&self) -> Result<Act, Refusal>
        ensures { result ≡ kind_act self.now (Ok Bist) }
    {
        if self.status.is_link_busy() {
            return Err(Refusal::WrongTime);
        }
        Ok(Act::ZeroCounters)
    }

    // A host frame for which what is lent is right.
    #[tactic(auto, unfolding(crate::specs::Tests::wrong_kind, refusals::specs::First::first_of))]
    fn kind_act(&self, frame: Result<Frame, Refusal>) -> Result<Act, Refusal>
        ensures { result ≡ kind_act self.now frame }
    {
        let Ok(Frame::Host(host)) = frame else {
            let Ok(Frame::Data(size)) = frame else {
                let Ok(Frame::Bist) = frame else {
                    return Err(Refusal::NoHostFrame);
                };
                return self.bist_act();
            };
            return self.data_act(size);
        };
        self.host_act(host)
    }

    /// What a host frame, as it was read, makes the device do.
    ///
    /// # Errors
    /// The first that holds of `Contradiction` (1), `MediumLength` (2), `ReplyShort` (3), `NoHostFrame` (4: the reader
    /// turned it down, or its kind is no host's), `WrongTime` (5), `TooLong` (6).
    #[tactic(auto, unfolding(refusals::specs::First::first_of))]
    pub fn frame_act(&self, frame: Result<Frame, Refusal>) -> Result<Act, Refusal>
        ensures { result ≡ heard_act self.now frame }
    {
        check(&[
            (self.contradicts, Refusal::Contradiction),
            (self.medium_wrong, Refusal::MediumLength),
            (self.reply_short, Refusal::ReplyShort),
        ])?;
        self.kind_act(frame)
    }
}
