// Bytes laid over the front of others.
ghost use Rattle.std.specs.Prelude.{◌≡◌, length, leb};
ghost use Rattle.bits.specs.Laid.{overlay_with_room};

/// `bytes` laid over the front of `buf`, where it has room: whether it had.
#[tactic(auto, unfolding(crate::specs::Laid::overlay_with_room))]
pub fn lay(buf: &mut [u8], bytes: &[u8]) -> bool
    ensures { (result ≡ leb (length bytes.now) (length buf.old)) × (buf.new ≡ overlay_with_room bytes.now buf.old) }
{
    match buf.split_at_mut_checked(bytes.len()) {
        Some((front, _rest)) => {
            front.copy_from_slice(bytes);
            true
        }
        None => false,
    }
}
