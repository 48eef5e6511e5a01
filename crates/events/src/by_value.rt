// One event to its call, of a device by value.
ghost use Rattle.device.specs.Lent.{gave};
ghost use Rattle.device.specs.Step.{Gives};
ghost use Rattle.events.specs.Calls.{event_step};

use crate::Event;
use crate::plays::play;
use device::{Device, Outcome, Sealed};

/// One event to its call, as `play`, of a state that is handed in and back as by the calls of `Device`: a state that contradicts
/// itself is refused with `Contradiction` (1), and all stays as it was then.
#[tactic(auto, unfolding(replies::specs::Replies::sent_all, frames::specs::Cut::joined_bytes), using(device::proofs::Contradicted::given_contradicted))]
pub fn play_by_value(device: Device, event: Event, medium: &mut [u8], reply: &mut [u8]) -> Outcome
    ensures { Gives (event_step device event medium.old reply.old) reply.old (gave result medium.new reply.new) }
{
    match Sealed::try_from(device) {
        Ok(mut sealed) => {
            let answer = play(&mut sealed, event, medium, reply);
            Device::from(sealed).with(answer)
        }
        Err(refusal) => device.with(Err(refusal)),
    }
}
