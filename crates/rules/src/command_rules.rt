// Which rule holds for a command.
ghost use Rattle.std.specs.Prelude.{◌≡◌};
ghost use Rattle.device_state.specs.Range.{too_far};
ghost use Rattle.rules.specs.QueuedRule.{tag_refused, queued_rule};
ghost use Rattle.rules.specs.OtherRule.{other_rule, log_zeroes};

use crate::errors::CommandError;
use device_state::Sectors;
use frames::LogPage;

/// A bad command, with its error.
#[derive(Clone, Copy, Debug, PartialEq, Eq)]
pub enum Bad {
    /// Answered with the error, and no more.
    Only(CommandError),
    /// Answered with the error, and with a halt whose record holds it.
    Halts(CommandError),
}

/// The tag that a queued command names.
#[derive(Clone, Copy, Debug, PartialEq, Eq)]
pub struct TagNamed {
    /// 0 to 31, as five bits of a frame name it; a larger one is above every depth
    pub tag: u8,
    /// it is outstanding
    pub busy: bool,
}

impl TagNamed {
    /// True where it is at or above the depth, or outstanding already.
    pub fn is_refused(self, depth: u32) -> bool
        ensures { result ≡ tag_refused depth self.tag self.busy }
    {
        depth <= u32::from(self.tag) || self.busy
    }
}

/// A page that a command which is not queued asks for.
#[derive(Clone, Copy, Debug, PartialEq, Eq)]
pub enum PageAsked {
    /// A log page, by a well-formed READ LOG EXT.
    Log(LogPage),
    /// What the device is, by IDENTIFY DEVICE.
    Identity,
}

/// A queued command is bad by the first rule that holds, or good: halt, tag, range.
pub fn queued_rule(
    halted: bool,
    depth: u32,
    tag: TagNamed,
    capacity: u32,
    sectors: Sectors,
) -> Result<(), Bad>
    ensures { result ≡ queued_rule halted (tag_refused depth tag.tag tag.busy) (too_far capacity sectors.first sectors.count) }
{
    if halted {
        return Err(Bad::Only(CommandError::Aborted));
    }
    if tag.is_refused(depth) {
        return Err(Bad::Halts(CommandError::Aborted));
    }
    if sectors.is_beyond(capacity) {
        return Err(Bad::Halts(CommandError::IdNotFound));
    }
    Ok(())
}

/// Any other command: bad, or the page that is sent. `page`: the one that it asks for, if it asks for one. `busy`: something is outstanding.
pub fn other_rule(halted: bool, page: Option<PageAsked>, busy: bool) -> Result<PageAsked, Bad>
    ensures { result ≡ other_rule halted page busy }
{
    if halted && page != Some(PageAsked::Log(LogPage::Errors)) {
        return Err(Bad::Only(CommandError::Aborted));
    }
    if busy {
        return Err(Bad::Halts(CommandError::Aborted));
    }
    page.ok_or(Bad::Only(CommandError::Aborted))
}

/// True where page 11h zeroes the counters once it is made. `features`: the low byte of the command that asks for it.
pub fn log_zeroes(features: u8) -> bool
    ensures { result ≡ log_zeroes features }
{
    frames::flag(features, 0)
}
