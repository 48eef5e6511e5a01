// What `write` is given.
ghost use Rattle.std.specs.Prelude.{◌≡◌, ◌<◌};
ghost use Rattle.call_scripts.specs.Writings.{target_of, named_flag, named_byte, named_short, named_long, task_at, host_at, device_at, bits_at, setup_at, pio_at, payload_at, fields_at, kind_words, frame_at, log_at, values_at, counters_at, writing_at, writing_of};

use crate::REPLY_SIZE;
use crate::names::named;
use crate::words::Words;
use counters::{Counters, ROWS};
use frames::{DevReg, DmaSetup, FrameKind, HostReg, PioSetup, SetBits, Task};
use pages::ErrorLog;

/// What is written, by the word behind `write`.
#[derive(Clone, Copy, Debug, PartialEq, Eq)]
enum Target {
    Frame,
    ErrorPage,
    CounterPage,
}

/// A frame that is written: its fields, or of a data frame how its payload counts up.
#[derive(Clone, Copy, Debug, PartialEq, Eq)]
pub enum FrameFields {
    /// 27h.
    Host(HostReg),
    /// 34h.
    Device(DevReg),
    /// A1h.
    Bits(SetBits),
    /// 41h.
    Setup(DmaSetup),
    /// 39h.
    Activate,
    /// 46h.
    Data {
        /// The bytes of the payload.
        size: u16,
        /// The first of them.
        byte: u8,
    },
    /// 58h.
    Bist,
    /// 5Fh.
    Pio(PioSetup),
}

/// What is written.
#[derive(Clone, Copy, Debug, PartialEq, Eq)]
pub enum Writing {
    /// A frame.
    Frame(FrameFields),
    /// Page 10h.
    ErrorPage(ErrorLog),
    /// Page 11h.
    Counters {
        /// The rows that are kept.
        mask: u16,
        /// The values of all sixteen.
        values: Counters,
    },
}

const TARGETS: [(&[u8], Target); 3] = [
    (b"frame", Target::Frame),
    (b"10", Target::ErrorPage),
    (b"11", Target::CounterPage),
];

impl Target {
    fn named(word: &[u8]) -> Option<Target>
        ensures { result ≡ target_of word.now }
    {
        named(&TARGETS, word)
    }
}

// How many words the line has that writes a frame of a kind.
fn kind_words(kind: FrameKind) -> usize
    ensures { result ≡ kind_words kind }
{
    match kind {
        FrameKind::HostRegister => 12,
        FrameKind::DeviceRegister | FrameKind::DmaSetup => 10,
        FrameKind::SetDeviceBits => 8,
        FrameKind::DmaActivate | FrameKind::BistActivate => 4,
        FrameKind::PioSetup => 13,
        FrameKind::Data => 6,
    }
}

impl<'a> Words<'a> {
    fn named_flag(&self, place: usize, name: &[u8]) -> Option<bool>
        ensures { result ≡ named_flag self.now place name.now }
    {
        Some(self.named(place, name, 1)? == 1)
    }

    fn named_byte(&self, place: usize, name: &[u8]) -> Option<u8>
        ensures { result ≡ named_byte self.now place name.now }
    {
        let number = self.named(place, name, u64::from(u8::MAX))?;
        u8::try_from(number).ok()
    }

    fn named_short(&self, place: usize, name: &[u8]) -> Option<u16>
        ensures { result ≡ named_short self.now place name.now }
    {
        let number = self.named(place, name, u64::from(u16::MAX))?;
        u16::try_from(number).ok()
    }

    fn named_long(&self, place: usize, name: &[u8]) -> Option<u32>
        ensures { result ≡ named_long self.now place name.now }
    {
        let number = self.named(place, name, u64::from(u32::MAX))?;
        u32::try_from(number).ok()
    }

    // LBA and device from a place on, and the count at another.
    fn task(&self, place: usize, count_place: usize) -> Option<Task>
        requires { place < 100 }
        ensures { result ≡ task_at self.now place count_place }
    {
        Some(Task {
            lba: self.named(place, b"lba=", u64::MAX)?,
            device: self.named_byte(place + 1, b"device=")?,
            count: self.named_short(count_place, b"count=")?,
        })
    }

    fn host(&self) -> Option<HostReg>
        ensures { result ≡ host_at self.now }
    {
        Some(HostReg {
            command_bit: self.named_flag(4, b"c=")?,
            command: self.named_byte(5, b"command=")?,
            features: self.named_byte(6, b"features=")?,
            task: self.task(7, 10)?,
            features_high: self.named_byte(9, b"features_high=")?,
            control: self.named_byte(11, b"control=")?,
        })
    }

    fn device(&self) -> Option<DevReg>
        ensures { result ≡ device_at self.now }
    {
        Some(DevReg {
            interrupt: self.named_flag(4, b"i=")?,
            status: self.named_byte(5, b"status=")?,
            error: self.named_byte(6, b"error=")?,
            task: self.task(7, 9)?,
        })
    }

    fn set_bits(&self) -> Option<SetBits>
        ensures { result ≡ bits_at self.now }
    {
        Some(SetBits {
            interrupt: self.named_flag(4, b"i=")?,
            status: self.named_byte(5, b"status=")?,
            error: self.named_byte(6, b"error=")?,
            active: self.named_long(7, b"sactive=")?,
        })
    }

    fn setup(&self) -> Option<DmaSetup>
        ensures { result ≡ setup_at self.now }
    {
        Some(DmaSetup {
            auto: self.named_flag(4, b"a=")?,
            interrupt: self.named_flag(5, b"i=")?,
            to_host: self.named_flag(6, b"d=")?,
            tag: self.named_long(7, b"tag=")?,
            offset: self.named_long(8, b"offset=")?,
            count: self.named_long(9, b"byte_count=")?,
        })
    }

    fn pio(&self) -> Option<PioSetup>
        ensures { result ≡ pio_at self.now }
    {
        Some(PioSetup {
            interrupt: self.named_flag(4, b"i=")?,
            to_host: self.named_flag(5, b"d=")?,
            status: self.named_byte(6, b"status=")?,
            error: self.named_byte(7, b"error=")?,
            task: self.task(8, 10)?,
            ending: self.named_byte(11, b"ending_status=")?,
            bytes: self.named_short(12, b"byte_count=")?,
        })
    }

    fn payload(&self) -> Option<FrameFields>
        ensures { result ≡ payload_at self.now }
    {
        Some(FrameFields::Data {
            size: self.small(4, REPLY_SIZE)?,
            byte: self.byte(5)?,
        })
    }

    fn fields(&self, kind: FrameKind) -> Option<FrameFields>
        ensures { result ≡ fields_at self.now kind }
    {
        match kind {
            FrameKind::HostRegister => Some(FrameFields::Host(self.host()?)),
            FrameKind::DeviceRegister => Some(FrameFields::Device(self.device()?)),
            FrameKind::SetDeviceBits => Some(FrameFields::Bits(self.set_bits()?)),
            FrameKind::DmaSetup => Some(FrameFields::Setup(self.setup()?)),
            FrameKind::DmaActivate => Some(FrameFields::Activate),
            FrameKind::BistActivate => Some(FrameFields::Bist),
            FrameKind::PioSetup => Some(FrameFields::Pio(self.pio()?)),
            FrameKind::Data => self.payload(),
        }
    }

    fn frame(&self) -> Option<Writing>
        ensures { result ≡ frame_at self.now }
    {
        let kind = FrameKind::from_byte(self.byte(3)?)?;
        if self.len() != kind_words(kind) {
            return None;
        }
        Some(Writing::Frame(self.fields(kind)?))
    }

    fn log(&self) -> Option<ErrorLog>
        ensures { result ≡ log_at self.now }
    {
        Some(ErrorLog {
            nq: self.named_flag(3, b"nq=")?,
            tag: self.named_byte(4, b"tag=")?,
            status: self.named_byte(5, b"status=")?,
            error: self.named_byte(6, b"error=")?,
            task: self.task(7, 9)?,
        })
    }

    #[tactic(auto, using(crate::proofs::WriteLaws::values_more), unfolding(crate::specs::Writings::values_at))]
    /// The values of all rows, from a word on.
    pub(crate) fn values(&self, place: u8) -> Option<Counters>
        ensures { result ≡ values_at self.now place 16 }
    {
        let mut values = [0; ROWS];
        for row in 0..ROWS {
            values[row] = self.long(usize::from(place) + row)?;
        }
        Some(values)
    }

    fn counters(&self) -> Option<Writing>
        ensures { result ≡ counters_at self.now }
    {
        Some(Writing::Counters {
            mask: self.short(3)?,
            values: self.values(4)?,
        })
    }

    fn writing(&self, target: Target) -> Option<Writing>
        ensures { result ≡ writing_at self.now target }
    {
        match target {
            Target::Frame => self.frame(),
            Target::ErrorPage if self.len() == 10 => Some(Writing::ErrorPage(self.log()?)),
            Target::CounterPage if self.len() == 20 => self.counters(),
            Target::ErrorPage | Target::CounterPage => None,
        }
    }

    /// What the words behind `write` ask for, but for the buffer's length.
    pub(crate) fn asked_writing(&self) -> Option<Writing>
        ensures { result ≡ writing_of self.now }
    {
        self.writing(Target::named(self.word(1)?)?)
    }
}
