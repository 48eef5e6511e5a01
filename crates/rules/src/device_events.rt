// What a device event makes the device do, or what it is refused with.
ghost use Rattle.std.specs.Prelude.{◌≡◌};
ghost use Rattle.refusals.specs.First.{first_of, unless};
ghost use Rattle.rules.specs.Call.{happens};
ghost use Rattle.rules.specs.Tests.{tests, some_unready};
ghost use Rattle.rules.specs.Act.{does, failing, act};

use crate::acts::{Act, Fault, Queued};
use crate::event::DeviceEvent;
use crate::facts::{Facts, next_move};
use device_state::{Echo, Entries, Status};
use frames::{PAYLOAD_LIMIT, Task};
use refusals::{Refusal, check};

/// True where a tag of the set is not outstanding, or not wholly moved: one walk over the set, the lowest tag first.
pub fn some_unready(entries: &Entries, status: Status, set: u32) -> bool
    ensures { result ≡ some_unready entries.now status.outstanding set }
{
    let mut rest = set;
    while rest != 0 {
        let tag = rest.trailing_zeros();
        let progress = entries[tag as usize].progress();
        if crate::is_unready(true, status.is_outstanding(tag), progress) {
            return true;
        }
        rest &= !(1 << tag);
    }
    false
}

// The command's bytes with the failing sector in those of the LBA.
fn failing(echo: Echo, sector: u32) -> Echo
    ensures { result ≡ failing echo sector }
{
    Echo::from(Task {
        lba: u64::from(sector),
        ..Task::from(echo)
    })
}

impl Facts {
    // What a device event is turned down for: its row of the refusal table.
    #[tactic(auto, unfolding(crate::specs::Tests::tests))]
    fn check_event(&self, event: DeviceEvent) -> Result<(), Refusal>
        ensures { result ≡ unless (first_of (tests self.now (happens event))) tt }
    {
        match event {
            // a tag of 32 or more is not outstanding
            DeviceEvent::OpenPhase(tag) => check(&[
                (self.contradicts, Refusal::Contradiction),
                (self.reply_short, Refusal::ReplyShort),
                (
                    !self.status.is_outstanding(u32::from(tag)),
                    Refusal::TagIdle,
                ),
                (self.status.is_link_busy(), Refusal::PhaseOpen),
                (self.entry.progress().is_whole(), Refusal::AllMoved),
            ]),
            DeviceEvent::SendData => check(&[
                (self.contradicts, Refusal::Contradiction),
                (self.medium_wrong, Refusal::MediumLength),
                (self.reply_short, Refusal::ReplyShort),
                (
                    self.status.phase.is_none() || self.entry.write,
                    Refusal::NoReadPhase,
                ),
            ]),
            // one bad tag refuses the whole set
            DeviceEvent::FinishTags(set) => check(&[
                (self.contradicts, Refusal::Contradiction),
                (self.reply_short, Refusal::ReplyShort),
                (self.status.is_link_busy(), Refusal::PhaseOpen),
                (set == 0 || self.some_unready, Refusal::SetUnready),
            ]),
            // in any phase
            DeviceEvent::MediaError { tag, error, sector } => check(&[
                (self.contradicts, Refusal::Contradiction),
                (self.reply_short, Refusal::ReplyShort),
                (
                    !self.status.is_outstanding(u32::from(tag)),
                    Refusal::TagIdle,
                ),
                (
                    error == 0 || self.entry.sectors().leaves_out(sector),
                    Refusal::OutsideCommand,
                ),
            ]),
            DeviceEvent::LinkEvent(row) => check(&[
                (self.contradicts, Refusal::Contradiction),
                (
                    device_state::row_refused(self.settings.mask, row),
                    Refusal::NoRow,
                ),
            ]),
            DeviceEvent::LinkTally(amounts) => check(&[
                (self.contradicts, Refusal::Contradiction),
                (
                    device_state::tally_refused(self.settings.mask, &amounts),
                    Refusal::NoRow,
                ),
            ]),
            DeviceEvent::Comreset => check(&[
                (self.contradicts, Refusal::Contradiction),
                (self.reply_short, Refusal::ReplyShort),
            ]),
        }
    }

    // What one that is not turned down makes the device do.
    #[tactic(auto, unfolding(crate::specs::Act::does, crate::specs::Positions::move_of))]
    fn does(&self, event: DeviceEvent) -> Act
        ensures { result ≡ does self.now (happens event) }
    {
        let entry = self.entry;
        match event {
            DeviceEvent::OpenPhase(tag) => Act::Open(Queued { tag, entry }),
            // a send that is not turned down is in a phase
            DeviceEvent::SendData => {
                let tag = self.status.phase.unwrap_or(0);
                Act::Send(next_move(tag, entry, PAYLOAD_LIMIT))
            }
            DeviceEvent::FinishTags(set) => Act::Finish(set),
            DeviceEvent::MediaError { tag, error, sector } => Act::Media(Fault {
                tag: Some(tag),
                error,
                echo: failing(entry.echo, sector),
            }),
            // a tally of one
            DeviceEvent::LinkEvent(row) => Act::Count(counters::single(row)),
            DeviceEvent::LinkTally(amounts) => Act::Count(amounts),
            DeviceEvent::Comreset => Act::Renew,
        }
    }

    /// What a device event makes the device do.
    ///
    /// # Errors
    /// The first that holds of its row:
    ///
    /// | event | refused with |
    /// |---|---|
    /// | open a phase | `Contradiction` (1), `ReplyShort` (3), `TagIdle` (7), `PhaseOpen` (8), `AllMoved` (9) |
    /// | send | `Contradiction` (1), `MediumLength` (2), `ReplyShort` (3), `NoReadPhase` (10) |
    /// | finish | `Contradiction` (1), `ReplyShort` (3), `PhaseOpen` (8), `SetUnready` (11) |
    /// | media error | `Contradiction` (1), `ReplyShort` (3), `TagIdle` (7), `OutsideCommand` (12: or the error byte is 0) |
    /// | link event, link tally | `Contradiction` (1), `NoRow` (13) |
    /// | COMRESET | `Contradiction` (1), `ReplyShort` (3) |
    #[tactic(auto, unfolding(crate::specs::Act::act))]
    pub fn event_act(&self, event: DeviceEvent) -> Result<Act, Refusal>
        ensures { result ≡ act self.now (happens event) }
    {
        self.check_event(event)?;
        Ok(self.does(event))
    }
}
