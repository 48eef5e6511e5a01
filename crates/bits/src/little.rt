// Numbers in bytes, the lowest byte first.
ghost use Rattle.std.specs.Prelude.{◌≡◌, min, replicate};
ghost use Rattle.bits.specs.Laid.{overlay_with_room};
ghost use Rattle.bits.specs.Little.{le_at, NumberGiven};

use crate::copying::lay;
use crate::parts::part;

// The bytes in front of zeros, where the array has room for them; else zeros alone.
fn padded<const N: usize>(bytes: &[u8]) -> [u8; N]
    ensures { result ≡ overlay_with_room bytes.now (replicate N 0) }
{
    let mut array = [0; N];
    lay(&mut array, bytes);
    array
}

/// The number of the `count` bytes (at most 8) from `at` on; past the end stand zeros.
pub fn le(bytes: &[u8], at: usize, count: usize) -> u64
    ensures { NumberGiven bytes.now at (min count 8) result }
{
    u64::from_le_bytes(padded(part(bytes, at, count.min(8))))
}

/// The 16-bit number at a place.
#[tactic(auto, using(crate::proofs::Littles::number_2))]
pub fn le16(bytes: &[u8], at: usize) -> u16
    ensures { result ≡ le_at bytes.now at 2 }
{
    u16::from_le_bytes(padded(part(bytes, at, 2)))
}

/// The 32-bit number at a place.
#[tactic(auto, using(crate::proofs::Littles::number_4))]
pub fn le32(bytes: &[u8], at: usize) -> u32
    ensures { result ≡ le_at bytes.now at 4 }
{
    u32::from_le_bytes(padded(part(bytes, at, 4)))
}
