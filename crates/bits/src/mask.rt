// Single bits of a mask. An index of 32 or more names no bit.
ghost use Rattle.std.specs.Prelude.{◌≡◌};
ghost use Rattle.bits.specs.Bit.{bit_in, with_bit_in};

/// The bit of a mask at an index.
pub fn bit(mask: u32, index: u32) -> bool
    ensures { result ≡ bit_in 32 mask index }
{
    mask.checked_shr(index).is_some_and(|rest| rest & 1 == 1)
}

/// The mask with the bit at an index on.
pub fn with_bit(mask: u32, index: u32) -> u32
    ensures { result ≡ with_bit_in 32 mask index }
{
    1u32.checked_shl(index).map_or(mask, |bit| mask | bit)
}
