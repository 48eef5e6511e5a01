// The state after an act.
#![tactic(auto, unfolding(crate::specs::After::counted_by, crate::specs::After::halt_with, crate::specs::After::accepted_by, crate::specs::After::unhalted_device, crate::specs::After::zeroed_if, crate::specs::After::reset_held, crate::specs::After::released_device, crate::specs::After::moved_by, crate::specs::After::opened_for, crate::specs::After::finished_by, crate::specs::After::failed_by, crate::specs::After::renewed_device, crate::specs::After::after_of))]

ghost use Rattle.std.specs.Prelude.{◌≡◌, true};
ghost use Rattle.device.specs.After.{counted_by, emptied_device, halt_with, accepted_by, unhalted_device, zeroed_if, reset_held, released_device, moved_by, opened_for, finished_by, failed_by, renewed_device, after_of};

use crate::state::Device;
use counters::{COMRESET_ROW, Counters, INTERFACE_CRC_ROW, ROWS};
use device_state::{Entry, ErrorRecord, Settings, Status};
use rules::{Act, Fault, Move, Queued};

impl Device {
    // Each row's counter has so many events more.
    fn count(&mut self, amounts: &Counters)
        ensures { self.new ≡ counted_by self.old amounts.now }
    {
        counters::tally(&mut self.values, amounts);
    }

    // Nothing is under way any more; settings and counters stay.
    fn empty(&mut self, status: Status, errors: ErrorRecord)
        ensures { self.new ≡ emptied_device self.old status errors }
    {
        self.status = status;
        self.entries = [Entry::default(); Settings::ENTRIES];
        self.errors = errors;
    }

    fn halt(&mut self, fault: Fault)
        ensures { self.new ≡ halt_with self.old fault }
    {
        self.empty(Status::halted(), ErrorRecord::from(fault));
    }

    fn accept(&mut self, queued: Queued)
        ensures { self.new ≡ accepted_by self.old queued }
    {
        let tag = u32::from(queued.tag);
        device_state::put_entry(&mut self.entries, tag, queued.entry);
        self.status = self.status.with_tag(tag);
    }

    fn end_halt(&mut self)
        ensures { self.new ≡ unhalted_device self.old }
    {
        self.status.halted = false;
    }

    fn zero(&mut self)
        ensures { self.new ≡ zeroed_if self.old true }
    {
        self.values = [0; ROWS];
    }

    fn hold_reset(&mut self)
        ensures { self.new ≡ reset_held self.old }
    {
        self.empty(Status::held(), ErrorRecord::default());
    }

    fn release(&mut self)
        ensures { self.new ≡ released_device self.old }
    {
        self.status.held = false;
    }

    fn move_on(&mut self, moved: Move)
        ensures { self.new ≡ moved_by self.old moved }
    {
        device_state::put_entry(&mut self.entries, moved.tag, moved.entry);
        if moved.last {
            self.status.phase = None;
        }
    }

    fn open_for(&mut self, tag: u8)
        ensures { self.new ≡ opened_for self.old tag }
    {
        self.status.phase = Some(u32::from(tag));
    }

    fn finish_tags(&mut self, set: u32)
        ensures { self.new ≡ finished_by self.old set }
    {
        device_state::clear_entries(&mut self.entries, set);
        self.status = self.status.without_tags(set);
    }

    fn renew(&mut self)
        ensures { self.new ≡ renewed_device self.old }
    {
        self.empty(Status::idle(), ErrorRecord::default());
        self.count(&counters::single(COMRESET_ROW));
    }

    fn fail(&mut self, fault: Fault)
        ensures { self.new ≡ failed_by self.old fault }
    {
        if frames::flag(fault.error, 7) {
            self.count(&counters::single(INTERFACE_CRC_ROW));
        }
        self.halt(fault);
    }

    // By the act: one function for each thing that changes. Inlined as `done` is.
    #[inline(always)]
    pub(crate) fn after(&mut self, act: &Act)
        ensures { self.new ≡ after_of self.old act.now }
    {
        match act {
            Act::Nothing | Act::Bad(_) | Act::Identify(_) => {}
            Act::BadAndHalt(fault) => self.halt(*fault),
            Act::Accept(queued) => self.accept(*queued),
            Act::Log10(_) => self.end_halt(),
            Act::Log11(read) => {
                if read.zero {
                    self.zero();
                }
            }
            Act::Reset => self.hold_reset(),
            Act::Release => self.release(),
            Act::ZeroCounters => self.zero(),
            Act::Store(moved) | Act::Send(moved) => self.move_on(*moved),
            Act::Open(queued) => self.open_for(queued.tag),
            Act::Finish(set) => self.finish_tags(*set),
            Act::Media(fault) => self.fail(*fault),
            Act::Count(amounts) => self.count(amounts),
            Act::Renew => self.renew(),
        }
    }
}
