// Bytes that count up.
ghost use Rattle.std.specs.Prelude.{◌≡◌, ◌<◌, ◌≤◌, length};
ghost use Rattle.call_scripts.specs.Counting.{counted};

/// Fills a buffer with `first`, and on from it by one a byte, each modulo `modulus`.
// Inlined, since it fills a whole medium: the modulus is a constant there.
#[inline]
#[tactic(auto, unfolding(crate::specs::Counting::counted))]
pub(crate) fn count_up(buffer: &mut [u8], first: u8, modulus: u16)
    requires positive { 0 < modulus }
    requires byte { modulus ≤ 256 }
    ensures { buffer.new ≡ counted modulus first (length buffer.old) }
{
    let modulus = usize::from(modulus);
    for (place, byte) in buffer.iter_mut().enumerate() {
        *byte = ((usize::from(first) + place) % modulus) as u8;
    }
}
