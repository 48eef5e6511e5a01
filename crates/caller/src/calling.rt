// One call of the device each. Nothing here is taken from the definitions of the device: what is proved is what its contracts tell a caller.
ghost use Rattle.rules.specs.Call.{host_frame, happens};
ghost use Rattle.rules.specs.declared.event.DeviceEvent.TheVariants.{OpenPhase, SendData, FinishTags, MediaError, LinkEvent, LinkTally, Comreset};
ghost use Rattle.device.specs.Lent.{lent, gave};
ghost use Rattle.caller.specs.Continued.{Begins, Continues, ContinuesReplying, ContinuesAlone, FirstCall};

use device::{Device, Outcome};
use device_state::Settings;

/// Power-on.
pub fn begin(settings: Settings) -> Outcome
    ensures { Begins settings result }
{
    Device::power_on(settings)
}

/// Host frame: 27h, 46h or 58h.
pub fn host_frame(device: Device, frame: &[u8], medium: &mut [u8], reply: &mut [u8]) -> Outcome
    ensures { Continues device (lent (host_frame frame.now) medium.old reply.old) (gave result medium.new reply.new) }
{
    device.host_frame(frame, medium, reply)
}

/// Open a phase for a tag.
pub fn open(device: Device, tag: u8, reply: &mut [u8]) -> Outcome
    ensures { ContinuesReplying device (happens (OpenPhase tag)) reply.old result reply.new }
{
    device.open(tag, reply)
}

/// Send, in a read phase: one data frame.
pub fn send(device: Device, medium: &[u8], reply: &mut [u8]) -> Outcome
    ensures { Continues device (lent (happens SendData) medium.now reply.old) (gave result medium.now reply.new) }
{
    device.send(medium, reply)
}

/// Finish a set of tags.
pub fn finish(device: Device, set: u32, reply: &mut [u8]) -> Outcome
    ensures { ContinuesReplying device (happens (FinishTags set)) reply.old result reply.new }
{
    device.finish(set, reply)
}

/// Media error at a sector of a tag's command.
pub fn media_error(device: Device, tag: u8, error: u8, sector: u32, reply: &mut [u8]) -> Outcome
    ensures { ContinuesReplying device (happens (MediaError tag error sector)) reply.old result reply.new }
{
    device.media_error(tag, error, sector, reply)
}

/// Link event: adds one to that counter.
pub fn link_event(device: Device, row: u8) -> Outcome
    ensures { ContinuesAlone device (happens (LinkEvent row)) result }
{
    device.link_event(row)
}

/// Link tally: adds to each row's counter its amount.
pub fn link_tally(device: Device, amounts: [u32; 16]) -> Outcome
    ensures { ContinuesAlone device (happens (LinkTally amounts)) result }
{
    device.link_tally(amounts)
}

/// COMRESET.
pub fn comreset(device: Device, reply: &mut [u8]) -> Outcome
    ensures { ContinuesReplying device (happens Comreset) reply.old result reply.new }
{
    device.comreset(reply)
}

/// Power-on and one link event, from what `begin` and `link_event` tell alone.
pub fn first_link(settings: Settings, row: u8) -> Outcome
    ensures { FirstCall settings (happens (LinkEvent row)) result }
{
    let begun = begin(settings);
    link_event(begun.state, row)
}
