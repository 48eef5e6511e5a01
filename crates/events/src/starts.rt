// Power-on by the settings record, which starts a run.
ghost use Rattle.std.specs.Prelude.{◌≡◌};
ghost use Rattle.device.specs.Sealing.{powered_of};
ghost use Rattle.events.specs.Start.{start_of};

use device::Sealed;
use device_state::Settings;
use refusals::Refusal;

/// The most sectors that a run may have: its medium is an array of the program's.
pub const RUN_CAPACITY_LIMIT: u32 = 64;

/// Power-on by the settings record: a device, or the refusal, which is 1 where it asks for more sectors than a run may have.
#[tactic(auto, unfolding(crate::specs::Start::start_of))]
pub fn start(settings: Settings) -> Result<Sealed, Refusal>
    ensures { powered_of result ≡ start_of settings }
{
    if settings.capacity > RUN_CAPACITY_LIMIT {
        return Err(Refusal::Contradiction);
    }
    Sealed::power_on(settings)
}
