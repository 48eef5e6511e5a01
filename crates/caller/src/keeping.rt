// One call of a kept device each: what is proved is what its contracts tell a caller, and it is what those of the device that is handed on tell.
ghost use Rattle.rules.specs.Call.{host_frame, happens};
ghost use Rattle.rules.specs.declared.event.DeviceEvent.TheVariants.{OpenPhase, SendData, FinishTags, MediaError, LinkEvent, LinkTally, Comreset};
ghost use Rattle.device.specs.Lent.{lent, gave, answered};
ghost use Rattle.device.specs.Sealing.{powered_of, state_of};
ghost use Rattle.caller.specs.Continued.{Begins, Continues, ContinuesReplying, ContinuesAlone};

use device::Sealed;
use device_state::Settings;
use refusals::Refusal;

/// Power-on.
pub fn keep(settings: Settings) -> Result<Sealed, Refusal>
    ensures { Begins settings (powered_of result) }
{
    Sealed::power_on(settings)
}

/// Host frame: 27h, 46h or 58h.
pub fn kept_host_frame(
    sealed: &mut Sealed,
    frame: &[u8],
    medium: &mut [u8],
    reply: &mut [u8],
) -> Result<usize, Refusal>
    ensures { Continues (state_of sealed.old) (lent (host_frame frame.now) medium.old reply.old) (gave (answered (state_of sealed.new) result) medium.new reply.new) }
{
    sealed.host_frame(frame, medium, reply)
}

/// Open a phase for a tag.
pub fn kept_open(sealed: &mut Sealed, tag: u8, reply: &mut [u8]) -> Result<usize, Refusal>
    ensures { ContinuesReplying (state_of sealed.old) (happens (OpenPhase tag)) reply.old (answered (state_of sealed.new) result) reply.new }
{
    sealed.open(tag, reply)
}

/// Send, in a read phase: one data frame.
pub fn kept_send(sealed: &mut Sealed, medium: &[u8], reply: &mut [u8]) -> Result<usize, Refusal>
    ensures { Continues (state_of sealed.old) (lent (happens SendData) medium.now reply.old) (gave (answered (state_of sealed.new) result) medium.now reply.new) }
{
    sealed.send(medium, reply)
}

/// Finish a set of tags.
pub fn kept_finish(sealed: &mut Sealed, set: u32, reply: &mut [u8]) -> Result<usize, Refusal>
    ensures { ContinuesReplying (state_of sealed.old) (happens (FinishTags set)) reply.old (answered (state_of sealed.new) result) reply.new }
{
    sealed.finish(set, reply)
}

/// Media error at a sector of a tag's command.
pub fn kept_media_error(
    sealed: &mut Sealed,
    tag: u8,
    error: u8,
    sector: u32,
    reply: &mut [u8],
) -> Result<usize, Refusal>
    ensures { ContinuesReplying (state_of sealed.old) (happens (MediaError tag error sector)) reply.old (answered (state_of sealed.new) result) reply.new }
{
    sealed.media_error(tag, error, sector, reply)
}

/// Link event: adds one to that counter.
pub fn kept_link_event(sealed: &mut Sealed, row: u8) -> Result<usize, Refusal>
    ensures { ContinuesAlone (state_of sealed.old) (happens (LinkEvent row)) (answered (state_of sealed.new) result) }
{
    sealed.link_event(row)
}

/// Link tally: adds to each row's counter its amount.
pub fn kept_link_tally(sealed: &mut Sealed, amounts: [u32; 16]) -> Result<usize, Refusal>
    ensures { ContinuesAlone (state_of sealed.old) (happens (LinkTally amounts)) (answered (state_of sealed.new) result) }
{
    sealed.link_tally(amounts)
}

/// COMRESET.
pub fn kept_comreset(sealed: &mut Sealed, reply: &mut [u8]) -> Result<usize, Refusal>
    ensures { ContinuesReplying (state_of sealed.old) (happens Comreset) reply.old (answered (state_of sealed.new) result) reply.new }
{
    sealed.comreset(reply)
}
