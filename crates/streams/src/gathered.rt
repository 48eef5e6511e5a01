// Lines that are gathered in a fixed room and written in large pieces.
ghost use Rattle.std.specs.Prelude.{◌≡◌, ◌+◌, ◌≤◌, []};
ghost use Rattle.streams.specs.Gathered.{held_back, gathering, Pushes};

use crate::watched::Watched;
use std::io;
use std::io::{Error, ErrorKind, Write};

// From so many bytes on what is held is much: to write it at once costs little.
const MUCH: usize = 32768;

// So many bytes are held at most: who passes much on before each line has room for one of 18,432 bytes or less, which is not cut then.
const ROOM: usize = MUCH + 18432;

/// Lines that are gathered. A contract sees what is held back of them. Once a write has failed nothing more is written.
#[derive(Drop)]
pub struct Lines {
    room: [u8; ROOM],
    held: usize,
    lost: Option<io::Error>,
}

impl Lines {
    /// None yet.
    pub fn new() -> Lines
        ensures { held_back result ≡ [] }
    {
        Lines {
            room: [0; ROOM],
            held: 0,
            lost: None,
        }
    }

    /// All that is held is written, unless a write failed before.
    #[inline(never)]
    pub fn pass_on<W: Write>(&mut self, out: &mut Watched<W>)
        ensures none { held_back self.new ≡ [] }
        ensures empty { self.new.held ≡ 0 }
        ensures pushed { Pushes (gathering (W.contents out.old.inner) (held_back self.old) out.old.failed) (gathering (W.contents out.new.inner) (held_back self.new) out.new.failed) [] }
    {
        let held = self.held.min(ROOM);
        self.held = 0;
        if out.has_failed() {
            return;
        }
        if let Err(e) = out.put(&self.room[..held]) {
            self.lost = Some(e);
        }
    }

    /// All that is held is written where it is much: 32,768 bytes or more.
    #[inline(always)]
    pub fn pass_much_on<W: Write>(&mut self, out: &mut Watched<W>)
        ensures pushed { Pushes (gathering (W.contents out.old.inner) (held_back self.old) out.old.failed) (gathering (W.contents out.new.inner) (held_back self.new) out.new.failed) [] }
    {
        if self.held >= MUCH {
            self.pass_on(out);
        }
    }

    // Behind what is held so many bytes have room then: where there was none it is written.
    #[inline(always)]
    fn make_room<W: Write>(&mut self, out: &mut Watched<W>, n: usize)
        requires { n ≤ ROOM }
        ensures room { self.new.held + n ≤ ROOM }
        ensures pushed { Pushes (gathering (W.contents out.old.inner) (held_back self.old) out.old.failed) (gathering (W.contents out.new.inner) (held_back self.new) out.new.failed) [] }
    {
        if self.held > ROOM - n {
            self.pass_on(out);
        }
    }

    // A text that is longer than the room.
    #[inline(never)]
    fn push_past<W: Write>(&mut self, out: &mut Watched<W>, text: &[u8])
        ensures pushed { Pushes (gathering (W.contents out.old.inner) (held_back self.old) out.old.failed) (gathering (W.contents out.new.inner) (held_back self.new) out.new.failed) text.now }
    {
        self.pass_on(out);
        if out.has_failed() {
            return;
        }
        if let Err(e) = out.put(text) {
            self.lost = Some(e);
        }
    }

    /// A text, behind what is gathered.
    // Where the length is fixed the compiler drops the call of `push_past`, and stores the text where it is to stand. What is handed
    // to a call that stays is laid in memory first, and read again in other pieces, for which the processor waits.
    #[inline(always)]
    pub fn push<W: Write>(&mut self, out: &mut Watched<W>, text: &[u8])
        ensures pushed { Pushes (gathering (W.contents out.old.inner) (held_back self.old) out.old.failed) (gathering (W.contents out.new.inner) (held_back self.new) out.new.failed) text.now }
    {
        if text.len() > ROOM {
            return self.push_past(out, text);
        }
        self.make_room(out, text.len());
        let end = self.held + text.len();
        self.room[self.held..end].copy_from_slice(text);
        self.held = end;
    }

    /// The error of the write that failed.
    pub fn error(&mut self) -> io::Error
        ensures same { held_back self.new ≡ held_back self.old }
    {
        self.lost.take().unwrap_or(Error::from(ErrorKind::Other))
    }
}
