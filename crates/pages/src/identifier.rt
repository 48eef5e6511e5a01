// The identifier that an entry of page 11h begins with.
ghost use Rattle.std.specs.Prelude.{◌≡◌, ◌<◌};
ghost use Rattle.pages.specs.Entries.{counter_entry, width_of, number_in, vendor_of, id_asked};
ghost use Rattle.pages.specs.Others11.{id_other};
ghost use Rattle.pages.specs.WalkStep.{faulty};

use crate::ENTRIES_END;

/// An identifier: bit 15 says that it is a vendor's, bits 14:12 how wide the value is, and bits 11:0 are the number.
#[derive(Clone, Copy, Debug, PartialEq, Eq)]
pub(crate) struct Identifier(pub(crate) u16);

impl Identifier {
    // Of 1 to 4: the value's bytes, in pairs.
    pub(crate) fn width(self) -> usize
        ensures { result ≡ width_of self.0 }
    {
        usize::from((self.0 >> 12) & 7)
    }

    // The counter's number.
    fn number(self) -> u16
        ensures { result ≡ number_in self.0 }
    {
        self.0 & 0xfff
    }

    fn is_vendor(self) -> bool
        ensures { result ≡ vendor_of self.0 }
    {
        bits::bit(u32::from(self.0), 15)
    }

    // Whether its entry, at a place, is one that no page may have. A vendor's has a width too, but its number may be 0.
    pub(crate) fn is_faulty(self, at: usize) -> bool
        requires { at < ENTRIES_END }
        ensures { result ≡ faulty (counter_entry at self.0) }
    {
        let width = self.width();
        !(1..=4).contains(&width)
            || ENTRIES_END < at + 2 + 2 * width
            || (!self.is_vendor() && self.number() == 0)
    }

    // Whether it is the asked counter's. Those with bit 15 are stepped over.
    pub(crate) fn is_asked(self, number: u16) -> bool
        ensures { result ≡ id_asked number self.0 }
    {
        !self.is_vendor() && self.number() == number
    }

    // Whether it is none of the sixteen counters': a vendor's, or one whose number has no row.
    pub(crate) fn is_other(self) -> bool
        ensures { result ≡ id_other self.0 }
    {
        self.is_vendor() || counters::row_of(self.number()).is_none()
    }
}
