// A state in lines of text: each a word, and numbers in hex.
ghost use Rattle.std.specs.Prelude.{◌≡◌, OnOk};
ghost use Rattle.std.specs.Io.KnownBytes.{Appends};
ghost use Rattle.device_state.specs.Contradictory.{idle_bad};
ghost use Rattle.call_scripts.specs.Rows.{numbers_text, row_text, settings_text, phase_number, status_text, echo_numbers, entry_text, told_text, entries_text, record_text, values_text, state_text};

use counters::Counters;
use device::Device;
use device_state::{Echo, Entry, ErrorRecord, Settings, Status};
use std::io;
use std::io::Write;

#[tactic(auto, unfolding(crate::specs::Rows::numbers_text))]
fn write_numbers<W: Write>(out: &mut W, numbers: &[u64]) -> io::Result<()>
    ensures { OnOk result (Appends (W.contents out.old) (W.contents out.new) (numbers_text numbers.now)) }
{
    for number in numbers {
        write!(out, " {number:x}")?;
    }
    Ok(())
}

fn write_row<W: Write>(out: &mut W, word: &[u8], numbers: &[u64]) -> io::Result<()>
    ensures { OnOk result (Appends (W.contents out.old) (W.contents out.new) (row_text word.now numbers.now)) }
{
    out.write_all(word)?;
    write_numbers(out, numbers)?;
    out.write_all(b"\n")
}

#[tactic(auto, unfolding(crate::specs::Rows::settings_text))]
fn write_settings<W: Write>(out: &mut W, settings: Settings) -> io::Result<()>
    ensures { OnOk result (Appends (W.contents out.old) (W.contents out.new) (settings_text settings)) }
{
    let Settings {
        depth,
        capacity,
        mask,
    } = settings;
    write_row(
        out,
        b"settings",
        &[depth.into(), capacity.into(), mask.into()],
    )
}

// The open phase as its tag and one, 0 where none is open.
fn phase_number(phase: Option<u32>) -> u64
    ensures { result ≡ phase_number phase }
{
    match phase {
        Some(tag) => u64::from(tag) + 1,
        None => 0,
    }
}

#[tactic(auto, unfolding(crate::specs::Rows::status_text))]
fn write_status<W: Write>(out: &mut W, status: Status) -> io::Result<()>
    ensures { OnOk result (Appends (W.contents out.old) (W.contents out.new) (status_text status)) }
{
    let numbers = [
        status.outstanding.into(),
        phase_number(status.phase),
        status.halted.into(),
        status.held.into(),
    ];
    write_row(out, b"status", &numbers)
}

fn echo_numbers(echo: Echo) -> [u64; 9]
    ensures { result ≡ echo_numbers echo }
{
    [
        echo.b4, echo.b5, echo.b6, echo.b7, echo.b8, echo.b9, echo.b10, echo.b12, echo.b13,
    ]
    .map(u64::from)
}

#[tactic(auto, unfolding(crate::specs::Rows::entry_text))]
fn write_entry<W: Write>(out: &mut W, tag: u64, entry: Entry) -> io::Result<()>
    ensures { OnOk result (Appends (W.contents out.old) (W.contents out.new) (entry_text tag entry)) }
{
    let numbers = [
        tag,
        entry.write.into(),
        entry.first.into(),
        entry.count.into(),
        entry.moved.into(),
        entry.features.into(),
        entry.features_high.into(),
    ];
    out.write_all(b"entry")?;
    write_numbers(out, &numbers)?;
    write_numbers(out, &echo_numbers(entry.echo))?;
    out.write_all(b"\n")
}

#[tactic(auto, unfolding(device_state::specs::Contradictory::idle_bad))]
fn is_told(entry: Entry) -> bool
    ensures { result ≡ idle_bad entry }
{
    entry != Entry::default()
}

// The entry of a tag, if it is not all zeros.
fn tell_entry<W: Write>(out: &mut W, tag: u64, entry: Entry) -> io::Result<()>
    ensures { OnOk result (Appends (W.contents out.old) (W.contents out.new) (told_text tag entry)) }
{
    if is_told(entry) {
        return write_entry(out, tag, entry);
    }
    Ok(())
}

fn write_entries<W: Write>(out: &mut W, entries: &[Entry]) -> io::Result<()>
    ensures { OnOk result (Appends (W.contents out.old) (W.contents out.new) (entries_text 0 entries.now)) }
{
    for (tag, entry) in entries.iter().enumerate() {
        tell_entry(out, tag as u64, *entry)?;
    }
    Ok(())
}

#[tactic(auto, unfolding(crate::specs::Rows::record_text))]
fn write_record<W: Write>(out: &mut W, errors: ErrorRecord) -> io::Result<()>
    ensures { OnOk result (Appends (W.contents out.old) (W.contents out.new) (record_text errors)) }
{
    let numbers = [
        errors.set.into(),
        errors.nq.into(),
        errors.tag.into(),
        errors.error.into(),
    ];
    out.write_all(b"record")?;
    write_numbers(out, &numbers)?;
    write_numbers(out, &echo_numbers(errors.echo))?;
    out.write_all(b"\n")
}

#[tactic(auto, unfolding(crate::specs::Rows::values_text))]
fn write_values<W: Write>(out: &mut W, values: &Counters) -> io::Result<()>
    ensures { OnOk result (Appends (W.contents out.old) (W.contents out.new) (values_text values.now)) }
{
    write_row(out, b"values", &values.map(u64::from))
}

/// The whole state, a line a part.
pub(crate) fn write_state<W: Write>(out: &mut W, device: &Device) -> io::Result<()>
    ensures { OnOk result (Appends (W.contents out.old) (W.contents out.new) (state_text device.now)) }
{
    write_settings(out, device.settings)?;
    write_status(out, device.status)?;
    write_entries(out, &device.entries)?;
    write_record(out, device.errors)?;
    write_values(out, &device.values)
}
