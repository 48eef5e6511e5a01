// The calls of a device by value, each lent a front of the medium.
ghost use Rattle.std.specs.Prelude.{◌≡◌, ◌≤◌, length, take, drop};
ghost use Rattle.rules.specs.Call.{happens};
ghost use Rattle.device.specs.Lent.{lent, gave};
ghost use Rattle.device.specs.Step.{Given};
ghost use Rattle.call_scripts.specs.Calls.{call_of};

use device::{Device, Outcome, Sealed};
use rules::DeviceEvent;

/// A call.
#[derive(Clone, Copy, Debug)]
pub(crate) enum Call<'a> {
    /// A frame from the host.
    HostFrame(&'a [u8]),
    /// A device event.
    Event(DeviceEvent),
}

#[tactic(auto, using(device::proofs::Contradicted::given_contradicted))]
fn play_event(device: Device, event: DeviceEvent, medium: &mut [u8], reply: &mut [u8]) -> Outcome
    ensures { Given device (lent (happens event) medium.old reply.old) (gave result medium.new reply.new) }
{
    match Sealed::try_from(device) {
        Ok(mut sealed) => {
            let answer = sealed.event(event, medium, reply);
            Device::from(sealed).with(answer)
        }
        Err(refusal) => device.with(Err(refusal)),
    }
}

impl<'a> Call<'a> {
    fn make(self, device: Device, medium: &mut [u8], reply: &mut [u8]) -> Outcome
        ensures { Given device (lent (call_of self.entry) medium.old reply.old) (gave result medium.new reply.new) }
    {
        match self {
            Call::HostFrame(frame) => device.host_frame(frame, medium, reply),
            Call::Event(event) => play_event(device, event, medium, reply),
        }
    }

    /// Makes the call of a device that is lent so many bytes of the medium; the others stay.
    pub(crate) fn make_with(
        self,
        device: Device,
        medium: &mut [u8],
        front: usize,
        reply: &mut [u8],
    ) -> Outcome
        requires { front ≤ length medium.old }
        ensures given { Given device (lent (call_of self.entry) (take front medium.old) reply.old) (gave result (take front medium.new) reply.new) }
        ensures rest { drop front medium.new ≡ drop front medium.old }
    {
        self.make(device, &mut medium[..front], reply)
    }
}
