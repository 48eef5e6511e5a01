// The calls of a device that is kept: each comes to an act, and the act says the rest. It answers the length of its replies, or the refusal, and leaves the new state in place.
#![tactic(auto)]

ghost use Rattle.std.specs.Prelude.{◌≡◌, ◌<◌, ◌^◌, [], leb, length};
ghost use Rattle.bits.specs.Pick.{pick};
ghost use Rattle.rules.specs.Handed.{handed};
ghost use Rattle.rules.specs.Call.{host_frame, happens};
ghost use Rattle.rules.specs.declared.event.DeviceEvent.TheVariants.{OpenPhase, SendData, FinishTags, MediaError, LinkEvent, LinkTally, Comreset};
ghost use Rattle.replies.specs.Replies.{replies_of, RepliesGiven};
ghost use Rattle.replies.specs.StateShown.{state_lent};
ghost use Rattle.device.specs.Device.{power_on};
ghost use Rattle.device.specs.Lent.{lent, gave, answered};
ghost use Rattle.device.specs.FactsOf.{entry_meant, medium_wrong, facts_with, unready_in};
ghost use Rattle.device.specs.After.{after_of};
ghost use Rattle.device.specs.Step.{state_shown, act_of, Given, GivenReplying, GivenAlone};
ghost use Rattle.device.specs.Sealing.{powered_of, state_of};

use crate::sealed::Sealed;
use crate::state::Device;
use counters::Counters;
use device_state::{Entry, Settings};
use identity::Identity;
use refusals::Refusal;
use replies::Shown;
use rules::{Act, DeviceEvent, Facts};

impl Device {
    // The entry of the tag that is meant; where none is, an idle one.
    fn entry_meant(&self, tag: Option<u32>) -> Entry
        ensures { result ≡ entry_meant self.now.entries tag }
    {
        tag.map(|tag| device_state::entry_of(&self.entries, tag))
            .unwrap_or_default()
    }

    // The medium's size cannot wrap at any capacity, so it may be asked for before `Contradiction` (1) is tested.
    fn medium_wrong(&self, medium: &[u8]) -> bool
        ensures { result ≡ medium_wrong self.now.settings.capacity (length medium.now) }
    {
        medium.len() != self.settings.medium_size()
    }

    // What replies show.
    fn shown(&self) -> Shown<'_>
        ensures { state_lent result ≡ state_shown self.now }
    {
        Shown {
            halted: self.status.halted,
            identity: Identity {
                depth: self.settings.depth,
                capacity: u64::from(self.settings.capacity),
            },
            mask: self.settings.mask,
            errors: &self.errors,
            values: &self.values,
        }
    }

    // The act is done: replies, whose length is answered, then the state. Inlined, with what it calls, where the act is made: a run
    // takes three to seven parts of a hundred less.
    #[inline(always)]
    fn done(&mut self, act: &Act, part: &[u8], reply: &mut [u8]) -> usize
        ensures state { self.new ≡ after_of self.old act.now }
        ensures reply { RepliesGiven (pick (leb 8196 (length reply.old)) (replies_of (state_shown self.old) part.now act.now) []) reply.old result reply.new }
    {
        let len = replies::emit(reply, act, &self.shown(), part);
        self.after(act);
        len
    }
}

impl Sealed {
    // What a decision looks at, of a call about a tag's entry, if it is about one: that the device does not contradict
    // itself is known by its field.
    fn facts(&self, tag: Option<u32>, some_unready: bool, medium: &[u8], reply: &[u8]) -> Facts
        ensures { let device = state_of self.now in result ≡ facts_with device tag (medium_wrong device.settings.capacity (length medium.now)) some_unready (length reply.now) }
    {
        let device = &self.device;
        Facts {
            contradicts: false,
            medium_wrong: device.medium_wrong(medium),
            reply_short: reply.len() < Device::REPLY_SIZE,
            settings: device.settings,
            status: device.status,
            entry: device.entry_meant(tag),
            some_unready,
        }
    }

    // What a host frame comes to: it is about the open phase.
    #[tactic(auto, using(crate::proofs::Doing::host_act))]
    fn frame_act(&self, frame: &[u8], medium: &[u8], reply: &[u8]) -> Result<Act, Refusal>
        ensures { result ≡ act_of (state_of self.now) (lent (host_frame frame.now) medium.now reply.now) }
    {
        let facts = self.facts(self.device.status.phase, false, medium, reply);
        facts.frame_act(frames::read_frame(frame))
    }

    // The set that it names has a tag that is not ready; an event that names no set has none.
    #[tactic(auto, using(crate::proofs::Doing::none_unready))]
    fn is_unready(&self, event: DeviceEvent) -> bool
        ensures unready { result ≡ unready_in (state_of self.now) (happens event) }
        ensures typed { (handed (happens event)).set < 2 ^ 32 }
    {
        match event {
            DeviceEvent::FinishTags(set) => {
                rules::some_unready(&self.device.entries, self.device.status, set)
            }
            DeviceEvent::OpenPhase(_)
            | DeviceEvent::SendData
            | DeviceEvent::MediaError { .. }
            | DeviceEvent::LinkEvent(_)
            | DeviceEvent::LinkTally(_)
            | DeviceEvent::Comreset => false,
        }
    }

    // What a device event comes to.
    #[tactic(auto, unfolding(crate::specs::Step::act_of))]
    fn event_act(&self, event: DeviceEvent, medium: &[u8], reply: &[u8]) -> Result<Act, Refusal>
        ensures act { result ≡ act_of (state_of self.now) (lent (happens event) medium.now reply.now) }
        ensures typed { (handed (happens event)).set < 2 ^ 32 }
    {
        let tag = event.tag_meant(self.device.status.phase);
        let facts = self.facts(tag, self.is_unready(event), medium, reply);
        facts.event_act(event)
    }

    /// Power-on: idle, record blank, counters 0.
    ///
    /// # Errors
    /// `Contradiction` (1) for settings out of bounds: depth 1 to 32, capacity 1 to 65,536 sectors, rows 0 and 9 kept.
    #[tactic(auto, unfolding(crate::specs::Sealing::powered_of, crate::specs::Device::power_on, crate::specs::Device::fresh_device, refusals::specs::First::first_of), using(crate::proofs::Defaults::default_zeros, crate::proofs::Kept::fresh_sound))]
    pub fn power_on(settings: Settings) -> Result<Sealed, Refusal>
        ensures { powered_of result ≡ power_on settings }
    {
        if device_state::settings_out(settings) {
            return Err(Refusal::Contradiction);
        }
        let device = Device {
            settings,
            ..Device::default()
        };
        Ok(Sealed { device })
    }

    /// Host frame: 27h of 20 bytes (a command, or control), 46h of 4 bytes and a payload (data), or 58h of 12 (BIST).
    ///
    /// # Errors
    /// The first that holds of `MediumLength` (2), `ReplyShort` (3), `NoHostFrame` (4), `WrongTime` (5), `TooLong` (6).
    pub fn host_frame(
        &mut self,
        frame: &[u8],
        medium: &mut [u8],
        reply: &mut [u8],
    ) -> Result<usize, Refusal>
        ensures { Given (state_of self.old) (lent (host_frame frame.now) medium.old reply.old) (gave (answered (state_of self.new) result) medium.new reply.new) }
    {
        let act = self.frame_act(frame, medium, reply)?;
        act.store(medium, frame);
        Ok(self.device.done(&act, b"", reply))
    }

    /// A device event. Of what is lent, it looks at the medium for a send alone, and for a link event or tally not
    /// at the reply buffer.
    ///
    /// # Errors
    /// Those of the method that it has below.
    pub fn event(
        &mut self,
        event: DeviceEvent,
        medium: &[u8],
        reply: &mut [u8],
    ) -> Result<usize, Refusal>
        ensures { Given (state_of self.old) (lent (happens event) medium.now reply.old) (gave (answered (state_of self.new) result) medium.now reply.new) }
    {
        let act = self.event_act(event, medium, reply)?;
        Ok(self.device.done(&act, act.part(medium), reply))
    }

    /// Open a phase for an outstanding tag: DMA Setup, and for a write an Activate.
    ///
    /// # Errors
    /// The first that holds of `ReplyShort` (3), `TagIdle` (7), `PhaseOpen` (8), `AllMoved` (9).
    pub fn open(&mut self, tag: u8, reply: &mut [u8]) -> Result<usize, Refusal>
        ensures { GivenReplying (state_of self.old) (happens (OpenPhase tag)) reply.old (answered (state_of self.new) result) reply.new }
    {
        self.event(DeviceEvent::OpenPhase(tag), b"", reply)
    }

    /// Send, in a read phase: one data frame, of 8,192 bytes or what is left of the command.
    ///
    /// # Errors
    /// The first that holds of `MediumLength` (2), `ReplyShort` (3), `NoReadPhase` (10).
    pub fn send(&mut self, medium: &[u8], reply: &mut [u8]) -> Result<usize, Refusal>
        ensures { Given (state_of self.old) (lent (happens SendData) medium.now reply.old) (gave (answered (state_of self.new) result) medium.now reply.new) }
    {
        self.event(DeviceEvent::SendData, medium, reply)
    }

    /// Finish a set of tags, bit t for tag t, whose data have all moved: Set Device Bits.
    ///
    /// # Errors
    /// The first that holds of `ReplyShort` (3), `PhaseOpen` (8), `SetUnready` (11).
    pub fn finish(&mut self, set: u32, reply: &mut [u8]) -> Result<usize, Refusal>
        ensures { GivenReplying (state_of self.old) (happens (FinishTags set)) reply.old (answered (state_of self.new) result) reply.new }
    {
        self.event(DeviceEvent::FinishTags(set), b"", reply)
    }

    /// Media error at a sector of an outstanding tag's command, counted from the medium's first: Set Device Bits, and the
    /// device halts. Bit 7 of the error byte adds one to counter 001h.
    ///
    /// # Errors
    /// The first that holds of `ReplyShort` (3), `TagIdle` (7), `OutsideCommand` (12).
    pub fn media_error(
        &mut self,
        tag: u8,
        error: u8,
        sector: u32,
        reply: &mut [u8],
    ) -> Result<usize, Refusal>
        ensures { GivenReplying (state_of self.old) (happens (MediaError tag error sector)) reply.old (answered (state_of self.new) result) reply.new }
    {
        self.event(DeviceEvent::MediaError { tag, error, sector }, b"", reply)
    }

    /// Link event: adds one to the counter of a kept row of page 11h, 1 to 15 but not 9. It replies nothing: 0 bytes.
    ///
    /// # Errors
    /// `NoRow` (13).
    #[tactic(auto, using(crate::proofs::Lending::given_silent))]
    pub fn link_event(&mut self, row: u8) -> Result<usize, Refusal>
        ensures { GivenAlone (state_of self.old) (happens (LinkEvent row)) (answered (state_of self.new) result) }
    {
        self.event(DeviceEvent::LinkEvent(row), b"", &mut [])
    }

    /// Link tally: adds to the counter of each row what as many link events would, all of them or none. An amount of 0 may
    /// stand anywhere. It replies nothing: 0 bytes.
    ///
    /// # Errors
    /// `NoRow` (13), for a row with another amount.
    #[tactic(auto, using(crate::proofs::Lending::given_silent))]
    pub fn link_tally(&mut self, amounts: Counters) -> Result<usize, Refusal>
        ensures { GivenAlone (state_of self.old) (happens (LinkTally amounts)) (answered (state_of self.new) result) }
    {
        self.event(DeviceEvent::LinkTally(amounts), b"", &mut [])
    }

    /// COMRESET: as SRST and release together, and one link reset more: the signature.
    ///
    /// # Errors
    /// `ReplyShort` (3).
    pub fn comreset(&mut self, reply: &mut [u8]) -> Result<usize, Refusal>
        ensures { GivenReplying (state_of self.old) (happens Comreset) reply.old (answered (state_of self.new) result) reply.new }
    {
        self.event(DeviceEvent::Comreset, b"", reply)
    }
}
