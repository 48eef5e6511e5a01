// A command asked of a bench, and what it answers as text.
ghost use Rattle.std.specs.Prelude.{◌≡◌, length, OnOk};
ghost use Rattle.std.specs.Io.KnownBytes.{Appends};
ghost use Rattle.rules.specs.Call.{host_frame};
ghost use Rattle.device.specs.Device.{power_on};
ghost use Rattle.call_scripts.specs.Calls.{call_of};
ghost use Rattle.call_scripts.specs.Bench.{after_call};
ghost use Rattle.call_scripts.specs.Counting.{counted, data_frame};
ghost use Rattle.call_scripts.specs.Answers.{part_text};
ghost use Rattle.call_scripts.specs.Answering.{buffer_of, call_text, power_text, after, answer_of};

use crate::answers::{write_count, write_counter, write_outcome, write_part};
use crate::bench::Bench;
use crate::calls::Call;
use crate::commands::Command;
use crate::counting::count_up;
use crate::data_frames::data_frame;
use crate::judging::{judged, write_verdict};
use crate::loans::Loan;
use crate::read_lines::write_reading;
use crate::rows::write_state;
use crate::write_lines::write_writing;
use crate::{REPLY_SIZE, UNTOUCHED};
use device::Device;
use device_state::Settings;
use std::alloc::Global;
use std::io;
use std::io::Write;

// The medium that `fill` makes counts up modulo this, so that no two sectors are alike.
const FILL_MODULUS: u16 = 251;

impl<'a> Bench<'a> {
    // A call, and its line.
    fn call<W: Write>(&mut self, alloc: Global, out: &mut W, call: Call) -> io::Result<()>
        ensures bench { self.new ≡ after_call self.old (call_of call.entry) (buffer_of self.old) }
        ensures text { OnOk result (Appends (W.contents out.old) (W.contents out.new) (call_text self.old (call_of call.entry))) }
    {
        let mut room = [UNTOUCHED; REPLY_SIZE as usize];
        let size = self.loan().reply.min(room.len());
        let reply = &mut room[..size];
        let outcome = self.make(call, reply);
        write_outcome(alloc, out, &outcome, reply)
    }

    #[tactic(auto, unfolding(device::specs::Device::power_on))]
    fn power<W: Write>(&mut self, alloc: Global, out: &mut W, settings: Settings) -> io::Result<()>
        ensures bench { self.new ≡ record self.old { device = (power_on settings).state } }
        ensures text { OnOk result (Appends (W.contents out.old) (W.contents out.new) (power_text settings)) }
    {
        let outcome = Device::power_on(settings);
        self.device = outcome.state;
        write_outcome(alloc, out, &outcome, &[])
    }

    fn data<W: Write>(&mut self, alloc: Global, out: &mut W, size: u16, byte: u8) -> io::Result<()>
        ensures bench { OnOk result (self.new ≡ after_call self.old (host_frame (data_frame size byte)) (buffer_of self.old)) }
        ensures text { OnOk result (Appends (W.contents out.old) (W.contents out.new) (call_text self.old (host_frame (data_frame size byte)))) }
    {
        let frame = data_frame(alloc, size, byte)?;
        self.call(alloc, out, Call::HostFrame(&frame))
    }

    fn part<W: Write>(&self, alloc: Global, out: &mut W, at: u32, size: u32) -> io::Result<()>
        ensures { OnOk result (Appends (W.contents out.old) (W.contents out.new) (part_text self.now.medium at size)) }
    {
        write_part(alloc, out, self.medium, at, size)
    }

    fn fill(&mut self, byte: u8)
        ensures { self.new ≡ record self.old { medium = counted 251 byte (length self.old.medium) } }
    {
        count_up(self.medium, byte, FILL_MODULUS);
    }

    /// Does what a command asks, and writes what it answers.
    ///
    /// # Errors
    /// The writer's, or no memory for a frame or for the digits of bytes; the bench is then as the command leaves it, or as it was.
    #[tactic(auto, unfolding(crate::specs::Answering::after, crate::specs::Answering::answer_of))]
    pub(crate) fn answer<W: Write>(
        &mut self,
        alloc: Global,
        out: &mut W,
        command: &Command,
    ) -> io::Result<()>
        ensures bench { OnOk result (self.new ≡ after self.old command.now) }
        ensures text { OnOk result (Appends (W.contents out.old) (W.contents out.new) (answer_of self.old command.now)) }
    {
        match command {
            Command::Nothing => Ok(()),
            Command::Power(settings) => self.power(alloc, out, *settings),
            Command::Frame(bytes) => self.call(alloc, out, Call::HostFrame(bytes.as_slice())),
            Command::Data { size, byte } => self.data(alloc, out, *size, *byte),
            Command::Event(event) => self.call(alloc, out, Call::Event(*event)),
            Command::Counter(number) => write_counter(out, self.device.counter(*number)),
            Command::Count => write_count(out, self.device.outstanding_count()),
            Command::Judge(host) => write_verdict(out, judged(&self.device, *host)),
            Command::Lend { medium, reply } => {
                self.loan = Some(Loan {
                    medium: *medium as usize,
                    reply: usize::from(*reply),
                });
                Ok(())
            }
            Command::Fill(byte) => {
                self.fill(*byte);
                Ok(())
            }
            Command::Set(change) => {
                change.apply(&mut self.device);
                Ok(())
            }
            Command::Show => write_state(out, &self.device),
            Command::Medium { at, size } => self.part(alloc, out, *at, *size),
            Command::Read(reading) => write_reading(alloc, out, reading),
            Command::Write { room, writing } => {
                write_writing(alloc, out, usize::from(*room), *writing)
            }
        }
    }
}
