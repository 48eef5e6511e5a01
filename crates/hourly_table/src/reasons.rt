// Why no table is given.
ghost use Rattle.std.specs.Prelude.{◌≡◌, Some, decimal};
ghost use Rattle.hourly_table.specs.Refused.{table_number};

use refusals::Refusal;
use std::error::Error;
use std::fmt;

/// Why no table is given.
#[derive(Clone, Copy, Debug, PartialEq, Eq)]
pub enum TableRefusal {
    /// a page, or a number asked, that a page's reader refuses: `PageLength`, `NoCounter`, `PageSum`, `PageDamaged`
    Reading(Refusal),
    /// an hour lower than the one before it
    HourBackwards,
    /// buffer too short
    TableShort,
}

impl TableRefusal {
    /// The number of the refusal table.
    pub fn number(self) -> u8
        ensures { result ≡ table_number self }
    {
        match self {
            TableRefusal::Reading(refusal) => refusal.number(),
            TableRefusal::HourBackwards => 70,
            TableRefusal::TableShort => 71,
        }
    }
}

/// A refusal is printed as its number, in decimal.
impl Error for TableRefusal {}

impl fmt::Display for TableRefusal {
    ghost output = { λ r. Some (decimal (table_number r)) };

    fn fmt<W: fmt::Write>(&self, f: &mut fmt::Formatter<W>) -> fmt::Result {
        write!(f, "{}", self.number())
    }
}
