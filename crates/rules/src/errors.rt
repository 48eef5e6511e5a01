// The errors of bad commands.
ghost use Rattle.std.specs.Prelude.{◌≡◌};
ghost use Rattle.rules.specs.Errors.{error_byte};

/// The error of a bad command; its discriminant is the byte of the error register.
#[derive(Clone, Copy, Debug, PartialEq, Eq)]
pub enum CommandError {
    /// ABRT: the command was aborted.
    Aborted = 0x04,
    /// IDNF: the command names a sector which is not there.
    IdNotFound = 0x10,
}

impl CommandError {
    /// The byte of the error register.
    pub fn byte(self) -> u8
        ensures { result ≡ error_byte self }
    {
        self as u8
    }
}
