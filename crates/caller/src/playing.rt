// One event each, with any medium and any reply buffer: what is proved is what the contracts of `events` tell a caller.

ghost use Rattle.device.specs.Lent.{gave, answered};
ghost use Rattle.device.specs.Sealing.{state_of};
ghost use Rattle.events.specs.Settings.{in_limit};
ghost use Rattle.caller.specs.Playing.{play as played, BeginsBy, PlayContinues, PlaysContinue, GivenPlaysHold, GivenPlaysTold};

use device::{Device, Outcome, Sealed};
use device_state::Settings;
use events::Event;
use refusals::Refusal;

/// Power-on by the settings record; out of a run's limit, refusal 1.
#[tactic(auto, using(crate::proofs::Plays::begins_by))]
pub fn start(settings: Settings) -> Result<Sealed, Refusal>
    ensures { BeginsBy (in_limit settings) settings result }
{
    events::start(settings)
}

/// One event: its call continues every history that led to the device.
pub fn play(
    sealed: &mut Sealed,
    event: Event,
    medium: &mut [u8],
    reply: &mut [u8],
) -> Result<usize, Refusal>
    ensures { PlayContinues (state_of sealed.old) (played event medium.old reply.old (gave (answered (state_of sealed.new) result) medium.new reply.new)) }
{
    events::play(sealed, event, medium, reply)
}

/// One event of a device by value: the same.
pub fn play_by_value(device: Device, event: Event, medium: &mut [u8], reply: &mut [u8]) -> Outcome
    ensures { PlayContinues device (played event medium.old reply.old (gave result medium.new reply.new)) }
{
    events::play_by_value(device, event, medium, reply)
}

/// Events played one after the other are a history of which all that docs/HISTORIES.md promises holds: fates, data, SActive, replies, counters and refusals. Their lines tell what each came to.
pub fn events_are_a_history()
    ensures together { PlaysContinue }
    ensures given { GivenPlaysHold }
    ensures told { GivenPlaysTold }
{}
