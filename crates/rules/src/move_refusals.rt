// What of a data frame and of a set of tags is refused for what has moved.
ghost use Rattle.std.specs.Prelude.{◌≡◌};
ghost use Rattle.device_state.specs.Progress.{left_in};
ghost use Rattle.rules.specs.MoveRefusals.{longer, not_ready};

use device_state::Progress;

/// True where a payload of `size` bytes is longer than what is left of its command.
pub fn is_too_long(progress: Progress, size: usize) -> bool
    ensures { result ≡ longer (left_in progress.whole progress.moved) size }
{
    (progress.left() as usize) < size
}

/// True where a tag is asked for that is not outstanding, or whose command is not wholly moved. `busy`: it is outstanding.
pub fn is_unready(asked: bool, busy: bool, progress: Progress) -> bool
    ensures { result ≡ not_ready asked busy progress.moved progress.whole }
{
    asked && (!busy || !progress.is_whole())
}
