// The features that a host can turn on and off, as two words of the page tell them: which there are, and which are on.
ghost use Rattle.std.specs.Prelude.{◌≡◌};
ghost use Rattle.identity.specs.Features.{features_word};

/// Features that a host can turn on and off.
#[derive(Clone, Copy, Debug, PartialEq, Eq)]
pub struct Features {
    /// DMA Setup with a buffer offset that is not 0: bit 1
    pub offsets: bool,
    /// DMA Setup that activates by itself: bit 2
    pub auto_activate: bool,
    /// settings that outlive a COMRESET: bit 6
    pub preservation: bool,
}

impl Features {
    /// None of them: the device takes no SET FEATURES.
    pub const NONE: Features = Features {
        offsets: false,
        auto_activate: false,
        preservation: false,
    };

    /// The word that tells them.
    pub fn word(self) -> u16
        ensures { result ≡ features_word self }
    {
        u16::from(self.offsets) << 1
            | u16::from(self.auto_activate) << 2
            | u16::from(self.preservation) << 6
    }
}
