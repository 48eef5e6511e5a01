// What the device is, its limits, and how it begins.
ghost use Rattle.std.specs.Prelude.{◌≡◌};
ghost use Rattle.device.specs.Device.{contradictory_device, power_on};
ghost use Rattle.device.specs.Lent.{answered};

use crate::sealed::Sealed;
use counters::Counters;
use device_state::{Entries, ErrorRecord, Settings, Status};
use refusals::Refusal;

/// Settings, what is under way, the entry of each tag, the error record, and the counters by row: a row that is not kept
/// holds 0 here, and is absent to `counter` and on page 11h. By default all zeros: idle, blank, and with settings that
/// every call refuses.
#[derive(Clone, Copy, Debug, Default, PartialEq, Eq)]
pub struct Device {
    /// fixed at power-on
    pub settings: Settings,
    /// the tags outstanding, the open phase, halted, held
    pub status: Status,
    /// entry t is that of tag t
    pub entries: Entries,
    /// what page 10h shows
    pub errors: ErrorRecord,
    /// events, by row of page 11h; at 2^32 - 1 one stays
    pub values: Counters,
}

/// What every call by value answers. Refused, a call leaves medium and reply buffer as they were. `medium` has 512 bytes
/// for each sector of the capacity (`Settings::medium_size`), and `reply` at least 8,196 (`Device::REPLY_SIZE`).
#[derive(Clone, Copy, Debug, PartialEq, Eq)]
pub struct Outcome {
    /// the state to be handed in next: refused, the one that came in; of a refused power-on, all zeros
    pub state: Device,
    /// why the call was turned down, if it was
    pub refusal: Option<Refusal>,
    /// bytes of the replies, which stand in front of `reply`, one behind the other; refused, 0
    pub len: usize,
}

impl Device {
    /// The most tags.
    pub const DEPTH_LIMIT: u32 = Settings::DEPTH_LIMIT;

    /// Bytes of a sector.
    pub const SECTOR_SIZE: usize = device_state::SECTOR_SIZE;

    /// The most bytes of a data frame's payload; the frame itself has 4 more (`REPLY_SIZE`).
    pub const PAYLOAD_LIMIT: usize = frames::PAYLOAD_LIMIT;

    /// The fewest bytes of a reply buffer that no call turns down.
    pub const REPLY_SIZE: usize = frames::DATA_FRAME_LIMIT;

    /// Power-on: idle, record blank, counters 0.
    ///
    /// Refused with `Contradiction` (1) for settings out of bounds: depth 1 to 32, capacity 1 to 65,536 sectors, rows 0 and 9
    /// kept. It then hands back all zeros.
    #[tactic(auto, unfolding(crate::specs::Sealing::powered_of), using(crate::proofs::Defaults::default_zeros))]
    pub fn power_on(settings: Settings) -> Outcome
        ensures { result ≡ power_on settings }
    {
        match Sealed::power_on(settings) {
            Ok(sealed) => sealed.device.with(Ok(0)),
            Err(refusal) => Device::default().with(Err(refusal)),
        }
    }

    /// The outcome of a call that left this state in place: what the call answered, and the state.
    pub fn with(self, answer: Result<usize, Refusal>) -> Outcome
        ensures { result ≡ answered self answer }
    {
        Outcome {
            state: self,
            refusal: answer.err(),
            len: answer.unwrap_or(0),
        }
    }

    /// Whether the state contradicts itself: every call on such a state is refused with `Contradiction` (1).
    #[tactic(auto, unfolding(crate::specs::Device::contradictory_device))]
    pub fn contradicts(&self) -> bool
        ensures { result ≡ contradictory_device self.now }
    {
        device_state::contradicts(
            self.settings,
            self.status,
            &self.entries,
            self.errors,
            &self.values,
        )
    }
}
