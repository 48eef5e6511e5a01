// Of the whole of a command's bytes: what is left, and what moves next.
ghost use Rattle.std.specs.Prelude.{◌≡◌};
ghost use Rattle.device_state.specs.Progress.{left_in, part_in, last_in, wholly, due_in, after_in};

use frames::PAYLOAD_LIMIT;

/// The whole of a command's bytes, and how many of them have moved.
#[derive(Clone, Copy, Debug, PartialEq, Eq)]
pub struct Progress {
    /// bytes
    pub whole: u32,
    /// bytes, in whole Dwords
    pub moved: u32,
}

impl Progress {
    /// What is left, once some have moved.
    pub fn left(self) -> u32
        ensures { result ≡ left_in self.whole self.moved }
    {
        self.whole.saturating_sub(self.moved)
    }

    /// At most `size` bytes, of what is left.
    pub fn part(self, size: usize) -> usize
        ensures { result ≡ part_in self.whole self.moved size }
    {
        size.min(self.left() as usize)
    }

    /// Nothing is left once `size` bytes more have moved.
    pub fn is_last(self, size: usize) -> bool
        ensures { result ≡ last_in self.whole self.moved size }
    {
        self.left() as usize <= size
    }

    /// All of them have moved.
    pub fn is_whole(self) -> bool
        ensures { result ≡ wholly self.moved self.whole }
    {
        self.moved == self.whole
    }

    /// How far it is once `size` bytes more have moved, or what is left.
    pub fn after(self, size: usize) -> Progress
        ensures { result ≡ after_in self size }
    {
        Progress {
            moved: self.moved + self.part(size) as u32,
            ..self
        }
    }

    /// The host data that are due in a write phase, in bytes: what one frame carries, or what is left.
    pub fn due(self) -> usize
        ensures { result ≡ due_in self }
    {
        self.part(PAYLOAD_LIMIT)
    }
}
