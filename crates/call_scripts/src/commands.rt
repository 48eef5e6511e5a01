// What a line of a script asks for.
ghost use Rattle.std.specs.Prelude.{◌≡◌, IfOk};
ghost use Rattle.call_scripts.specs.Commands.{settings_at, media_at, command_at, asked_at, command_in, command_of};

use crate::bytes::Bytes;
use crate::changes::Change;
use crate::judging::queued_command;
use crate::readings::Reading;
use crate::verbs::Verb;
use crate::words::{Words, asked_text};
use crate::writings::Writing;
use crate::{MEDIUM_SIZE, PAYLOAD_MOST, REPLY_SIZE};
use device_state::Settings;
use frames::HostReg;
use rules::DeviceEvent;
use std::alloc::{AllocError, Global};

/// What a line asks for.
#[derive(Debug, Drop)]
pub enum Command {
    /// An empty line, or one with a comment alone: nothing.
    Nothing,
    /// Power-on.
    Power(Settings),
    /// A host frame of just these bytes.
    Frame(Bytes),
    /// A data frame whose payload counts up.
    Data {
        /// The bytes of the payload.
        size: u16,
        /// The first of them.
        byte: u8,
    },
    /// A device event.
    Event(DeviceEvent),
    /// What the counter of a number is.
    Counter(u16),
    /// How many commands are outstanding.
    Count,
    /// What a queued command comes to.
    Judge(HostReg),
    /// How much is lent from now on.
    Lend {
        /// Bytes of the medium.
        medium: u32,
        /// Bytes of the reply buffer.
        reply: u16,
    },
    /// The medium counts up from this byte.
    Fill(u8),
    /// A change of the state that is handed in next.
    Set(Change),
    /// The whole state.
    Show,
    /// Bytes of the medium.
    Medium {
        /// The first of them.
        at: u32,
        /// How many.
        size: u32,
    },
    /// What is read.
    Read(Reading),
    /// What is written.
    Write {
        /// The bytes of the buffer.
        room: u16,
        /// What goes to it.
        writing: Writing,
    },
}

impl<'a> Words<'a> {
    fn settings(&self) -> Option<Settings>
        ensures { result ≡ settings_at self.now }
    {
        Some(Settings {
            depth: self.long(1)?,
            capacity: self.long(2)?,
            mask: self.short(3)?,
        })
    }

    fn media_error(&self) -> Option<DeviceEvent>
        ensures { result ≡ media_at self.now }
    {
        Some(DeviceEvent::MediaError {
            tag: self.byte(1)?,
            error: self.byte(2)?,
            sector: self.long(3)?,
        })
    }

    // An amount for each row.
    fn command(&self, verb: Verb) -> Option<Command>
        ensures { result ≡ command_at self.now verb }
    {
        Some(match verb {
            Verb::Power => Command::Power(self.settings()?),
            // their bytes need memory, and no other command does
            Verb::Frame | Verb::Judge | Verb::Read => return None,
            Verb::Data => Command::Data {
                size: self.small(1, PAYLOAD_MOST)?,
                byte: self.byte(2)?,
            },
            Verb::Open => Command::Event(DeviceEvent::OpenPhase(self.byte(1)?)),
            Verb::Send => Command::Event(DeviceEvent::SendData),
            Verb::Finish => Command::Event(DeviceEvent::FinishTags(self.long(1)?)),
            Verb::Media => Command::Event(self.media_error()?),
            Verb::Link => Command::Event(DeviceEvent::LinkEvent(self.byte(1)?)),
            Verb::Tally => Command::Event(DeviceEvent::LinkTally(self.values(1)?)),
            Verb::Comreset => Command::Event(DeviceEvent::Comreset),
            Verb::Counter => Command::Counter(self.short(1)?),
            Verb::Count => Command::Count,
            Verb::Lend => Command::Lend {
                medium: self.number(1, MEDIUM_SIZE as u32)?,
                reply: self.small(2, REPLY_SIZE)?,
            },
            Verb::Fill => Command::Fill(self.byte(1)?),
            Verb::Set => Command::Set(self.asked_change()?),
            Verb::Show => Command::Show,
            Verb::Medium => Command::Medium {
                at: self.long(1)?,
                size: self.long(2)?,
            },
            Verb::Write => Command::Write {
                room: self.small(2, REPLY_SIZE)?,
                writing: self.asked_writing()?,
            },
        })
    }

    fn judged(&self, alloc: Global) -> Result<Option<Command>, AllocError>
        ensures { IfOk result (λ asked. asked ≡ asked_at self.now Verb.Judge) }
    {
        let Some(bytes) = self.bytes(alloc, 1)? else {
            return Ok(None);
        };
        Ok(queued_command(bytes.as_slice()).map(Command::Judge))
    }

    fn asked(&self, alloc: Global, verb: Verb) -> Result<Option<Command>, AllocError>
        ensures { IfOk result (λ asked. asked ≡ asked_at self.now verb) }
    {
        match verb {
            Verb::Frame => Ok(self.bytes(alloc, 1)?.map(Command::Frame)),
            Verb::Judge => self.judged(alloc),
            Verb::Read => Ok(self.asked_reading(alloc)?.map(Command::Read)),
            _ => Ok(self.command(verb)),
        }
    }

    fn all_asked(&self, alloc: Global) -> Result<Option<Command>, AllocError>
        ensures { IfOk result (λ asked. asked ≡ command_in self.now) }
    {
        let Some(first) = self.word(0) else {
            return Ok(Some(Command::Nothing));
        };
        match Verb::named(first) {
            Some(verb) if self.fit(verb.words()) => self.asked(alloc, verb),
            _ => Ok(None),
        }
    }
}

impl Command {
    /// What a line asks for, its end not among its bytes; `None` for a line that asks for nothing that there is.
    ///
    /// # Errors
    /// No memory for the words of the line, or for the bytes of a frame.
    pub fn parse(alloc: Global, line: &[u8]) -> Result<Option<Command>, AllocError>
        ensures { IfOk result (λ asked. asked ≡ command_of line.now) }
    {
        Words::new(alloc, asked_text(line))?.all_asked(alloc)
    }
}
