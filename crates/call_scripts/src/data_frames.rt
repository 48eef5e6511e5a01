// A data frame that counts up.
ghost use Rattle.std.specs.Prelude.{◌≡◌, IfOk};
ghost use Rattle.call_scripts.specs.Counting.{counted, data_frame};

use crate::counting::count_up;
use frames::DATA_HEAD;
use std::alloc::{AllocError, Global};

/// So many bytes, the first of them given, each of the others one more.
pub(crate) fn payload(alloc: Global, size: u16, byte: u8) -> Result<Vec<u8>, AllocError>
    ensures { IfOk result (λ payload. payload.items ≡ counted 256 byte size) }
{
    let mut payload = vec![in alloc; 0; usize::from(size)]?;
    count_up(&mut payload, byte, 256);
    Ok(payload)
}

/// A data frame of so many bytes of payload, the first of them given, each of the others one more.
pub(crate) fn data_frame(alloc: Global, size: u16, byte: u8) -> Result<Vec<u8>, AllocError>
    ensures { IfOk result (λ frame. frame.items ≡ data_frame size byte) }
{
    let mut frame = Vec::new(alloc);
    frame.extend_from_slice(&DATA_HEAD)?;
    frame.extend_from_slice(&payload(alloc, size, byte)?)?;
    Ok(frame)
}
