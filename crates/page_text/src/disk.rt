// The shelf that programs have.
ghost use Rattle.std.specs.Prelude.{None};

use crate::shelf::Shelf;
use std::{fs, io};

/// The files that lie where a path says. Nothing is known of them, nor can a contract say which name the system is
/// handed: that of std's `fs::open` has no clause. That it is the very name is tried (`tests/pages/run`) [text-files].
#[derive(Drop)]
pub struct Disk<'a> {
    /// what opens them
    pub rt: &'a HostRuntime,
}

impl<'a> Shelf for Disk<'a> {
    type Page = fs::File;

    ghost holds = { λ disk name. None };

    fn open(&self, name: &str) -> io::Result<fs::File> {
        fs::open(self.rt, name)
    }
}
