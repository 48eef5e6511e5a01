// The commands that the device tells apart.
ghost use Rattle.std.specs.Prelude.{◌≡◌};
ghost use Rattle.rules.specs.Command.{command_named};

/// A command that the device tells apart, by its name in the ATA standard; its discriminant is its byte.
#[derive(Clone, Copy, Debug, PartialEq, Eq)]
pub(crate) enum Command {
    /// READ LOG EXT: reads a log page.
    ReadLogExt = 0x2F,
    /// IDENTIFY DEVICE: reads the page that says what the device is.
    IdentifyDevice = 0xEC,
    /// READ FPDMA QUEUED: the queued read.
    ReadFpdmaQueued = 0x60,
    /// WRITE FPDMA QUEUED: the queued write.
    WriteFpdmaQueued = 0x61,
}

impl Command {
    /// The command that a byte names, if it is one of the four.
    pub(crate) fn from_byte(byte: u8) -> Option<Command>
        ensures { result ≡ command_named byte }
    {
        match byte {
            0x2F => Some(Command::ReadLogExt),
            0xEC => Some(Command::IdentifyDevice),
            0x60 => Some(Command::ReadFpdmaQueued),
            0x61 => Some(Command::WriteFpdmaQueued),
            _ => None,
        }
    }
}
