// Host data of the length due, all of one byte.
ghost use Rattle.std.specs.Prelude.{◌≡◌, ◌≤◌};
ghost use Rattle.rules.specs.Call.{host_frame};
ghost use Rattle.device.specs.Lent.{lent, gave, answered};
ghost use Rattle.device.specs.Sealing.{state_of};
ghost use Rattle.device.specs.Step.{Given};
ghost use Rattle.events.specs.HostData.{data_frame, host_data_frame};

use device::Sealed;
use frames::{DATA_FRAME_LIMIT, DATA_HEAD, DATA_HEAD_SIZE};
use refusals::Refusal;

// The data frame of `size` bytes, all of the one byte given, in front of a room for the longest: what stands behind it is not
// looked at.
fn lay_data(room: &mut [u8; DATA_FRAME_LIMIT], size: usize, byte: u8) -> &[u8]
    requires { size ≤ 8192 }
    ensures { result.now ≡ data_frame size byte }
{
    let frame = &mut room[..DATA_HEAD_SIZE + size];
    let (head, payload) = frame.split_at_mut(DATA_HEAD_SIZE);
    head.copy_from_slice(&DATA_HEAD);
    payload.fill(byte);
    frame
}

/// Host data of the length due, all of the one byte given; `room` is where the frame is laid.
#[tactic(auto, using(crate::proofs::Frames::due_within))]
pub(crate) fn host_data(
    sealed: &mut Sealed,
    byte: u8,
    room: &mut [u8; DATA_FRAME_LIMIT],
    medium: &mut [u8],
    reply: &mut [u8],
) -> Result<usize, Refusal>
    ensures { Given (state_of sealed.old) (lent (host_frame (host_data_frame (state_of sealed.old) byte)) medium.old reply.old) (gave (answered (state_of sealed.new) result) medium.new reply.new) }
{
    // with no write phase the event carries 4 payload bytes, which the device refuses: with 2 or 3 where the medium
    // or the reply buffer lent to it is no good, and else with 5
    let size = sealed.state().data_due().unwrap_or(4);
    let frame = lay_data(room, size, byte);
    sealed.host_frame(frame, medium, reply)
}
