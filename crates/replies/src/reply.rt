// A reply, by its kind: each that an act gives, and how it is written.
ghost use Rattle.std.specs.Prelude.{◌≡◌};
ghost use Rattle.frames.specs.Write.{set_bits, FrameWriteGiven};
ghost use Rattle.replies.specs.Replies.{register, good, bad_reply, signature, sweep, pio_reply, setup_reply, finish_reply, media_reply};
ghost use Rattle.replies.specs.Framed.{framed};

use crate::status::{READY, READY_DATA, READY_ERROR, WELL};
use frames::{DevReg, DmaSetup, PioSetup, SetBits, Task};
use pages::PAGE_SIZE;
use refusals::Refusal;
use rules::Queued;

#[derive(Clone, Copy, Debug, PartialEq, Eq)]
pub(crate) enum Reply<'a> {
    Register(DevReg),
    Bits(SetBits),
    Setup(DmaSetup),
    Activate,
    Pio(PioSetup),
    Data(&'a [u8]),
}

impl<'a> Reply<'a> {
    fn register(interrupt: bool, status: u8, error: u8, task: Task) -> Reply<'a>
        ensures { framed result ≡ register interrupt status error task }
    {
        Reply::Register(DevReg {
            interrupt,
            status,
            error,
            task,
        })
    }

    fn bits(interrupt: bool, status: u8, error: u8, active: u32) -> Reply<'a>
        ensures { framed result ≡ set_bits (record { interrupt = interrupt; status = status; error = error; active = active }) }
    {
        Reply::Bits(SetBits {
            interrupt,
            status,
            error,
            active,
        })
    }

    pub(crate) fn good(task: Task) -> Reply<'a>
        ensures { framed result ≡ good task }
    {
        Reply::register(false, READY, 0, task)
    }

    pub(crate) fn bad(error: u8, task: Task) -> Reply<'a>
        ensures { framed result ≡ bad_reply error task }
    {
        Reply::register(true, READY_ERROR, error, task)
    }

    pub(crate) fn signature() -> Reply<'a>
        ensures { framed result ≡ signature }
    {
        let task = Task {
            lba: 1,
            device: 0,
            count: 1,
        };
        Reply::register(false, READY, WELL, task)
    }

    pub(crate) fn sweep() -> Reply<'a>
        ensures { framed result ≡ sweep }
    {
        Reply::bits(false, READY, 0, 0xFFFF_FFFF)
    }

    pub(crate) fn finish(set: u32) -> Reply<'a>
        ensures { framed result ≡ finish_reply set }
    {
        Reply::bits(true, READY, 0, set)
    }

    pub(crate) fn media(error: u8) -> Reply<'a>
        ensures { framed result ≡ media_reply error }
    {
        Reply::bits(true, READY_ERROR, error, 0)
    }

    pub(crate) fn pio(task: Task) -> Reply<'a>
        ensures { framed result ≡ pio_reply task }
    {
        Reply::Pio(PioSetup {
            interrupt: true,
            to_host: true,
            status: READY_DATA,
            error: 0,
            task,
            ending: READY,
            bytes: PAGE_SIZE as u16,
        })
    }

    pub(crate) fn setup(queued: &Queued) -> Reply<'a>
        ensures { framed result ≡ setup_reply queued.now }
    {
        Reply::Setup(DmaSetup {
            auto: false,
            interrupt: false,
            to_host: !queued.entry.write,
            tag: u32::from(queued.tag),
            offset: 0,
            count: queued.entry.whole(),
        })
    }

    #[inline(always)]
    /// The reply in front of `room`, if its values fit their fields and it has the room.
    pub(crate) fn write(&self, room: &mut [u8]) -> Result<usize, Refusal>
        ensures { FrameWriteGiven (framed self.now) room.old result room.new }
    {
        match self {
            Reply::Register(fields) => frames::write_device(room, *fields),
            Reply::Bits(fields) => frames::write_bits(room, *fields),
            Reply::Setup(fields) => frames::write_setup(room, *fields),
            Reply::Activate => frames::write_activate(room),
            Reply::Pio(fields) => frames::write_pio(room, *fields),
            Reply::Data(payload) => frames::write_data(room, payload),
        }
    }
}
