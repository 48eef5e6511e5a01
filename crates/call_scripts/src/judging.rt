// What a queued command comes to, for which no medium need be lent.
ghost use Rattle.std.specs.Prelude.{◌≡◌, OnOk};
ghost use Rattle.std.specs.Io.KnownBytes.{Appends};
ghost use Rattle.rules.specs.Decide.{is_queued};
ghost use Rattle.call_scripts.specs.Judging.{queued_command, facts_all_lent, judged, verdict_text};

use device::Device;
use device_state::Entry;
use frames::{Frame, HostReg};
use refusals::Refusal;
use rules::{Act, Facts};
use std::io;
use std::io::Write;

// READ FPDMA QUEUED or WRITE FPDMA QUEUED.
fn is_queued(host: HostReg) -> bool
    ensures { result ≡ is_queued host }
{
    host.command == 0x60 || host.command == 0x61
}

/// The queued command that the bytes are, if they are one.
pub(crate) fn queued_command(bytes: &[u8]) -> Option<HostReg>
    ensures { result ≡ queued_command bytes.now }
{
    let Ok(Frame::Host(host)) = frames::read_frame(bytes) else {
        return None;
    };
    (host.command_bit && is_queued(host)).then_some(host)
}

// What is looked at where all is lent that a call may want.
#[tactic(auto, unfolding(crate::specs::Judging::facts_all_lent))]
fn facts_of(device: &Device) -> Facts
    ensures { result ≡ facts_all_lent device.now }
{
    Facts {
        contradicts: device.contradicts(),
        medium_wrong: false,
        reply_short: false,
        settings: device.settings,
        status: device.status,
        entry: Entry::default(),
        some_unready: false,
    }
}

/// What a queued command makes the device do.
pub(crate) fn judged(device: &Device, host: HostReg) -> Result<Act, Refusal>
    ensures { result ≡ judged device.now host }
{
    facts_of(device).frame_act(Ok(Frame::Host(host)))
}

/// Whether the command is good, and its error byte if it is not, or the refusal.
pub(crate) fn write_verdict<W: Write>(out: &mut W, judged: Result<Act, Refusal>) -> io::Result<()>
    ensures { OnOk result (Appends (W.contents out.old) (W.contents out.new) (verdict_text judged)) }
{
    match judged {
        Ok(Act::Accept(_)) => writeln!(out, "good"),
        Ok(Act::Bad(reply)) => writeln!(out, "bad {:x}", reply.error),
        Ok(Act::BadAndHalt(fault)) => writeln!(out, "halt {:x}", fault.error),
        // no queued command comes to another act
        Ok(_) => writeln!(out, "what?"),
        Err(refusal) => writeln!(out, "refused {refusal}"),
    }
}
