// The calls of a device by value, after power-on: the state goes in and is handed back. Each asks once whether it contradicts itself, and is then the call of a device that is kept (`sealed_calls.rt`).
#![tactic(auto, using(crate::proofs::Contradicted::given_contradicted))]

ghost use Rattle.std.specs.Prelude.{◌≡◌};
ghost use Rattle.rules.specs.Call.{host_frame, happens};
ghost use Rattle.rules.specs.declared.event.DeviceEvent.TheVariants.{OpenPhase, SendData, FinishTags, MediaError, LinkEvent, LinkTally, Comreset};
ghost use Rattle.device.specs.Lent.{lent, gave};
ghost use Rattle.device.specs.DataDue.{data_due};
ghost use Rattle.device.specs.Step.{Given, GivenReplying, GivenAlone};

use crate::sealed::Sealed;
use crate::state::{Device, Outcome};
use counters::Counters;

// The call of a device that is kept; a state that contradicts itself is handed back as it is.
macro_rules! kept {
    ($device:ident.$call:ident($($argument:expr),*)) => {
        match Sealed::try_from($device) {
            Ok(mut sealed) => {
                let answer = sealed.$call($($argument),*);
                $device = sealed.device;
                $device.with(answer)
            }
            Err(refusal) => $device.with(Err(refusal)),
        }
    };
}

impl Device {
    /// Host frame: 27h of 20 bytes (a command, or control), 46h of 4 bytes and a payload (data), or 58h of 12 (BIST).
    ///
    /// Refused with the first that holds of `Contradiction` (1), `MediumLength` (2), `ReplyShort` (3), `NoHostFrame` (4),
    /// `WrongTime` (5), `TooLong` (6).
    pub fn host_frame(mut self, frame: &[u8], medium: &mut [u8], reply: &mut [u8]) -> Outcome
        ensures { Given self (lent (host_frame frame.now) medium.old reply.old) (gave result medium.new reply.new) }
    {
        kept!(self.host_frame(frame, medium, reply))
    }

    /// Open a phase for an outstanding tag: DMA Setup, and for a write an Activate.
    ///
    /// Refused with the first that holds of `Contradiction` (1), `ReplyShort` (3), `TagIdle` (7), `PhaseOpen` (8),
    /// `AllMoved` (9).
    pub fn open(mut self, tag: u8, reply: &mut [u8]) -> Outcome
        ensures { GivenReplying self (happens (OpenPhase tag)) reply.old result reply.new }
    {
        kept!(self.open(tag, reply))
    }

    /// Send, in a read phase: one data frame, of 8,192 bytes or what is left of the command.
    ///
    /// Refused with the first that holds of `Contradiction` (1), `MediumLength` (2), `ReplyShort` (3),
    /// `NoReadPhase` (10).
    pub fn send(mut self, medium: &[u8], reply: &mut [u8]) -> Outcome
        ensures { Given self (lent (happens SendData) medium.now reply.old) (gave result medium.now reply.new) }
    {
        kept!(self.send(medium, reply))
    }

    /// Finish a set of tags, bit t for tag t, whose data have all moved: Set Device Bits.
    ///
    /// Refused with the first that holds of `Contradiction` (1), `ReplyShort` (3), `PhaseOpen` (8),
    /// `SetUnready` (11).
    pub fn finish(mut self, set: u32, reply: &mut [u8]) -> Outcome
        ensures { GivenReplying self (happens (FinishTags set)) reply.old result reply.new }
    {
        kept!(self.finish(set, reply))
    }

    /// Media error at a sector of an outstanding tag's command, counted from the medium's first: Set Device Bits, and the
    /// device halts. Bit 7 of the error byte adds one to counter 001h.
    ///
    /// Refused with the first that holds of `Contradiction` (1), `ReplyShort` (3), `TagIdle` (7),
    /// `OutsideCommand` (12).
    pub fn media_error(mut self, tag: u8, error: u8, sector: u32, reply: &mut [u8]) -> Outcome
        ensures { GivenReplying self (happens (MediaError tag error sector)) reply.old result reply.new }
    {
        kept!(self.media_error(tag, error, sector, reply))
    }

    /// Link event: adds one to the counter of a kept row of page 11h, 1 to 15 but not 9. It replies nothing.
    ///
    /// Refused with the first that holds of `Contradiction` (1), `NoRow` (13).
    pub fn link_event(mut self, row: u8) -> Outcome
        ensures { GivenAlone self (happens (LinkEvent row)) result }
    {
        kept!(self.link_event(row))
    }

    /// Link tally: adds to the counter of each row what as many link events would, all of them or none. An amount of 0 may
    /// stand anywhere. No reply.
    ///
    /// Refused with the first that holds of `Contradiction` (1), `NoRow` (13).
    pub fn link_tally(mut self, amounts: Counters) -> Outcome
        ensures { GivenAlone self (happens (LinkTally amounts)) result }
    {
        kept!(self.link_tally(amounts))
    }

    /// COMRESET: as SRST and release together, and one link reset more: the signature.
    ///
    /// Refused with the first that holds of `Contradiction` (1), `ReplyShort` (3).
    pub fn comreset(mut self, reply: &mut [u8]) -> Outcome
        ensures { GivenReplying self (happens Comreset) reply.old result reply.new }
    {
        kept!(self.comreset(reply))
    }

    /// The length of the host data that is due, in bytes; `None` if no write phase is open.
    #[tactic(auto, unfolding(crate::specs::DataDue::data_due))]
    pub fn data_due(&self) -> Option<usize>
        ensures { result ≡ data_due self.now }
    {
        let entry = device_state::entry_of(&self.entries, self.status.phase?);
        entry.write.then_some(entry.progress().due())
    }
}
