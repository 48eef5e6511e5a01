// Why a call, a reader or a writer turns down what it is handed.
ghost use Rattle.std.specs.Prelude.{◌≡◌, Some, decimal};
ghost use Rattle.refusals.specs.Number.{number, number_told};

use std::error::Error;
use std::fmt;

/// Why something is turned down; its discriminant is the number that is told.
#[derive(Clone, Copy, Debug, PartialEq, Eq)]
pub enum Refusal {
    /// settings out of bounds, or the state handed in contradicts itself
    Contradiction = 1,
    /// medium length wrong
    MediumLength = 2,
    /// reply buffer under 8,196 bytes
    ReplyShort = 3,
    /// frame type not 27h, 46h, 58h, or wrong length
    NoHostFrame = 4,
    /// command while reset is held or a phase is open, BIST while a phase is open, data with no write phase
    WrongTime = 5,
    /// payload longer than what is left of the command
    TooLong = 6,
    /// tag not outstanding
    TagIdle = 7,
    /// a phase is open
    PhaseOpen = 8,
    /// all moved already
    AllMoved = 9,
    /// no read phase
    NoReadPhase = 10,
    /// empty set, or a tag not outstanding or not wholly moved
    SetUnready = 11,
    /// error byte 0, or sector outside the command
    OutsideCommand = 12,
    /// row 0, row 9, above 15, or not kept
    NoRow = 13,
    /// page not 512 bytes
    PageLength = 20,
    /// sum of the page wrong; of that of IDENTIFY DEVICE also A5h missing
    PageSum = 21,
    /// page 11h: an entry that no page may have, or the asked number twice
    PageDamaged = 22,
    /// number asked not 1 to FFFh
    NoCounter = 23,
    /// frame kind unknown or length wrong
    NoFrame = 24,
    /// a value too large for its bits, or one that its place may not hold
    Unfit = 25,
    /// buffer too short
    BufferShort = 26,
}

impl Refusal {
    /// The number of the refusal table, never 0.
    pub fn number(self) -> u8
        ensures { result ≡ number self }
    {
        self as u8
    }

    /// The number that is told of a refusal or of none: 0 of none, as what was taken has.
    pub fn number_told(refusal: Option<Refusal>) -> u8
        ensures { result ≡ number_told refusal }
    {
        refusal.map_or(0, Refusal::number)
    }
}

/// A refusal is printed as its number, in decimal.
impl Error for Refusal {}

impl fmt::Display for Refusal {
    ghost output = { λ r. Some (decimal (number r)) };

    fn fmt<W: fmt::Write>(&self, f: &mut fmt::Formatter<W>) -> fmt::Result {
        write!(f, "{}", self.number())
    }
}
