// Sectors against a range.
ghost use Rattle.std.specs.Prelude.{◌≡◌};
ghost use Rattle.device_state.specs.Range.{too_far, outside_of};

/// The sectors of a command: `count` of them, from `first` on. No sum of the two is taken, so that none wraps.
#[derive(Clone, Copy, Debug, PartialEq, Eq)]
pub struct Sectors {
    /// a sector; a frame names one of 48 bits
    pub first: u64,
    /// sectors
    pub count: u32,
}

impl Sectors {
    /// True where they end above `capacity`, in sectors.
    pub fn is_beyond(self, capacity: u32) -> bool
        ensures { result ≡ too_far capacity self.first self.count }
    {
        u64::from(capacity)
            .checked_sub(self.first)
            .is_none_or(|left| left < u64::from(self.count))
    }

    /// True where `sector` is none of them.
    pub fn leaves_out(self, sector: u32) -> bool
        ensures { result ≡ outside_of self.first self.count sector }
    {
        u64::from(sector)
            .checked_sub(self.first)
            .is_none_or(|index| u64::from(self.count) <= index)
    }
}
