// Bytes written in front of a buffer, or a refusal, and then no byte is changed.
ghost use Rattle.std.specs.Prelude.{◌++◌};
ghost use Rattle.frames.specs.Emit.{WriteGiven};

use refusals::Refusal;

/// Writes `head` and `rest` behind it to the front of `buf`: how many bytes were written.
///
/// # Errors
/// `Unfit` (25) where the values do not fit their places, which `fit` tells, and else `BufferShort` (26) where `buf` has
/// no room for all of the bytes.
#[tactic(auto, unfolding(crate::specs::Emit::write_refusal, refusals::specs::First::first_of))]
pub fn emit(buf: &mut [u8], fit: bool, head: &[u8], rest: &[u8]) -> Result<usize, Refusal>
    ensures { WriteGiven fit (head.now ++ rest.now) buf.old result buf.new }
{
    if !fit {
        return Err(Refusal::Unfit);
    }
    let size = head.len() + rest.len();
    let Some((front, _behind)) = buf.split_at_mut_checked(size) else {
        return Err(Refusal::BufferShort);
    };
    let (first, second) = front.split_at_mut(head.len());
    first.copy_from_slice(head);
    second.copy_from_slice(rest);
    Ok(size)
}
