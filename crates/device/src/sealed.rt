// A device that is kept: by a field of its own it does not contradict itself, so that no call tests it again.
ghost use Rattle.std.specs.Prelude.{◌≡◌, false};
ghost use Rattle.device.specs.Device.{contradictory_device};

use crate::state::Device;
use refusals::Refusal;

/// A device whose state does not contradict itself: what `power_on` gives, or a `Device` by `try_from`.
///
/// Each call goes in place. It answers the bytes of its replies, which stand in front of `reply`, one behind the other;
/// refused, it leaves device, medium and reply buffer as they were. `medium` has 512 bytes for each sector of the
/// capacity (`Settings::medium_size`), and `reply` at least 8,196 (`Device::REPLY_SIZE`).
#[derive(Debug, Drop, PartialEq, Eq)]
pub struct Sealed {
    // lent by `state` alone, so that nothing but a call changes it
    pub(crate) device: Device,
    ghost sound: { contradictory_device device ≡ false },
}

/// The state as it is; `Contradiction` (1) for one that contradicts itself.
impl TryFrom<Device> for Sealed {
    type Error = Refusal;

    ghost use Rattle.device.specs.Sealing.{Seals};

    ghost try_from_gives = { Seals };

    fn try_from(device: Device) -> Result<Sealed, Refusal> {
        if device.contradicts() {
            return Err(Refusal::Contradiction);
        }
        Ok(Sealed { device })
    }
}

/// The state by value, as the calls left it.
impl From<Sealed> for Device {
    ghost use Rattle.device.specs.Sealing.{state_of};

    ghost from_gives = { λ sealed device. device ≡ state_of sealed };

    fn from(sealed: Sealed) -> Device {
        sealed.device
    }
}

impl Sealed {
    ghost use Rattle.device.specs.Sealing.{state_of};

    /// Its state, of which the questions are methods (`Device::counter`, `outstanding_count`, `data_due`).
    pub fn state(&self) -> &Device
        ensures { result.now ≡ state_of self.now }
    {
        &self.device
    }
}
