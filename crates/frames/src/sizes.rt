// The lengths of frames by the kind's byte, and of payloads.
ghost use Rattle.std.specs.Prelude.{◌≡◌};
ghost use Rattle.frames.specs.Size.{fixed_size, payload_size};

use crate::kinds::FrameKind;

/// The most bytes of a data frame's payload.
pub const PAYLOAD_LIMIT: usize = 8192;

/// The head of a data frame, which stands before its payload: the byte of its kind, and three of 0.
pub const DATA_HEAD: [u8; 4] = [FrameKind::Data as u8, 0, 0, 0];

/// The bytes of a data frame's head.
pub const DATA_HEAD_SIZE: usize = DATA_HEAD.len();

/// The most bytes of a data frame: the payload behind its head.
pub const DATA_FRAME_LIMIT: usize = DATA_HEAD_SIZE + PAYLOAD_LIMIT;

/// The length that a byte's kind fixes; 46h and an unknown kind fix none.
#[tactic(auto, unfolding(crate::specs::Size::fixed_size))]
pub fn fixed_size(byte: u8) -> Option<usize>
    ensures { result ≡ fixed_size byte }
{
    FrameKind::from_byte(byte).and_then(FrameKind::size)
}

/// Whether a payload may have this length: 4 to 8,192 bytes in steps of 4.
pub fn is_payload_size(length: usize) -> bool
    ensures { result ≡ payload_size length }
{
    (4..=PAYLOAD_LIMIT).contains(&length) && length % 4 == 0
}
