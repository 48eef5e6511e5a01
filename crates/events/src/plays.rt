// One event to its call.
ghost use Rattle.device.specs.Lent.{gave, answered};
ghost use Rattle.device.specs.Sealing.{state_of};
ghost use Rattle.device.specs.Step.{Gives};
ghost use Rattle.events.specs.Calls.{event_step};

use crate::Event;
use crate::host_data::host_data;
use device::Sealed;
use frames::DATA_FRAME_LIMIT;
use refusals::Refusal;

/// An event to its call; `room` is where the frame of host data is laid. A run hands on frames from the host by themselves
/// (`EventBytes::frame`).
#[tactic(auto, unfolding(crate::specs::Calls::call_of))]
pub(crate) fn make_call(
    sealed: &mut Sealed,
    event: Event,
    room: &mut [u8; DATA_FRAME_LIMIT],
    medium: &mut [u8],
    reply: &mut [u8],
) -> Result<usize, Refusal>
    ensures { Gives (event_step (state_of sealed.old) event medium.old reply.old) reply.old (gave (answered (state_of sealed.new) result) medium.new reply.new) }
{
    match event {
        Event::OfDevice(event) => sealed.event(event, medium, reply),
        Event::HostData(byte) => host_data(sealed, byte, room, medium, reply),
        Event::HostRegister(frame) => sealed.host_frame(&frame, medium, reply),
        Event::Bist(frame) => sealed.host_frame(&frame, medium, reply),
    }
}

/// One event to its call: medium and reply buffer are those of the device's calls.
pub fn play(
    sealed: &mut Sealed,
    event: Event,
    medium: &mut [u8],
    reply: &mut [u8],
) -> Result<usize, Refusal>
    ensures { Gives (event_step (state_of sealed.old) event medium.old reply.old) reply.old (gave (answered (state_of sealed.new) result) medium.new reply.new) }
{
    make_call(sealed, event, &mut [0; DATA_FRAME_LIMIT], medium, reply)
}
