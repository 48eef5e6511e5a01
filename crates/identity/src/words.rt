// The 256 words of the page: the table. Why each has its value: docs/IDENTIFY.md.
ghost use Rattle.std.specs.Prelude.{◌≡◌, ◌<◌};
ghost use Rattle.bits.specs.Little.{le_bytes};
ghost use Rattle.identity.specs.Words.{word_of, sixteen_bits, fits_identity};

use crate::features::Features;

/// What the page of IDENTIFY DEVICE is made of.
#[derive(Clone, Copy, Debug, PartialEq, Eq)]
pub struct Identity {
    /// how many commands can be outstanding: 1 to 32
    pub depth: u32,
    /// sectors of 512 bytes, in 48 bits
    pub capacity: u64,
}

// Two spaces.
const SPACES: u16 = 0x2020;

// The most sectors that 28 bits can tell.
const MOST_BY_28_BITS: u64 = 0x0fff_ffff;

// Sixteen bits of a number, from one on.
fn sixteen_bits(number: u64, from: u32) -> u16
    requires { from < 64 }
    ensures { result ≡ sixteen_bits number from }
{
    ((number >> from) & 0xffff) as u16
}

impl Identity {
    /// Whether the depth is one of 1 to 32, and the capacity one of 48 bits.
    pub fn fits(self) -> bool
        ensures { result ≡ fits_identity self }
    {
        (1..=32).contains(&self.depth) && self.capacity >> 48 == 0
    }

    // The table: what has no line is 0.
    #[tactic(auto, unfolding(crate::specs::Words::word_of))]
    fn word(self, index: usize) -> u16
        ensures { result ≡ word_of self index }
    {
        match index {
            2 => 0xC837,
            10..=19 | 23..=46 => SPACES,
            47 => 0x8000,
            49 => 0x0300,
            50 => 0x4000,
            53 => 0x0004,
            60 => sixteen_bits(self.capacity.min(MOST_BY_28_BITS), 0),
            61 => sixteen_bits(self.capacity.min(MOST_BY_28_BITS), 16),
            75 => (self.depth.saturating_sub(1) & 31) as u16,
            76 => 0x0502,
            78 => Features::NONE.word(),
            79 => Features::NONE.word(),
            80 => 0x0040,
            83 => 0x4400,
            84 => 0x4020,
            86 => 0x0400,
            87 => 0x4020,
            88 => 0x203F,
            100 => sixteen_bits(self.capacity, 0),
            101 => sixteen_bits(self.capacity, 16),
            102 => sixteen_bits(self.capacity, 32),
            103 => sixteen_bits(self.capacity, 48),
            255 => 0x00A5,
            _ => 0,
        }
    }

    // A word's two bytes, the lower first.
    pub(crate) fn word_bytes(self, index: usize) -> [u8; 2]
        ensures { result ≡ le_bytes 2 (word_of self index) }
    {
        self.word(index).to_le_bytes()
    }
}
