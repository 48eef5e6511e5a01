// What is refused with `Contradiction` (1): settings out of bounds, or a state that contradicts itself.
ghost use Rattle.std.specs.Prelude.{◌≡◌};
ghost use Rattle.bits.specs.Bit.{bit_in};
ghost use Rattle.device_state.specs.UnderWay.{open_for};
ghost use Rattle.device_state.specs.Contradictory.{settings_out, moved_bad, busy_bad, idle_bad, entry_bad, table_bad, status_bad, record_bad, row_bad, rows_bad, contradictory, row_refused, amount_refused, tally_refused};

use crate::{Entries, Entry, ErrorRecord, Settings, Status};
use counters::{COMRESET_ROW, Counters, INTERFACE_CRC_ROW};
use frames::Task;

/// Depth 1 to 32, capacity 1 to 65,536, rows 0 and 9 kept, or the settings are out of bounds.
#[tactic(auto, unfolding(crate::specs::Contradictory::settings_out))]
pub fn settings_out(settings: Settings) -> bool
    ensures { result ≡ settings_out settings }
{
    !(1..=Settings::DEPTH_LIMIT).contains(&settings.depth)
        || !(1..=Settings::CAPACITY_LIMIT).contains(&settings.capacity)
        || !counters::keeps_both(settings.mask)
}

// In bytes, and in whole Dwords.
#[tactic(auto, unfolding(crate::specs::Contradictory::moved_bad))]
fn moved_bad(entry: &Entry, phase: bool) -> bool
    ensures { result ≡ moved_bad entry.now phase }
{
    let whole = entry.whole();
    whole < entry.moved
        || entry.moved % 4 != 0
        || !phase && entry.moved != 0 && entry.moved != whole
        || phase && entry.moved == whole
}

#[tactic(auto, unfolding(crate::specs::Contradictory::busy_bad))]
fn busy_bad(settings: Settings, entry: &Entry, tag: u32, phase: bool) -> bool
    ensures { result ≡ busy_bad settings entry.now tag phase }
{
    let task = Task::from(entry.echo);
    settings.depth <= tag
        || entry.sectors().is_beyond(settings.capacity)
        || entry.count == 0
        || u32::from(frames::tag_of(task.count)) != tag
        || task.lba != u64::from(entry.first)
        || frames::sectors_of(entry.features, entry.features_high) != entry.count
        || moved_bad(entry, phase)
}

#[tactic(auto, unfolding(crate::specs::Contradictory::idle_bad))]
fn idle_bad(entry: &Entry) -> bool
    ensures { result ≡ idle_bad entry.now }
{
    *entry != Entry::default()
}

#[tactic(auto, unfolding(crate::specs::Contradictory::entry_bad))]
fn entry_bad(settings: Settings, entry: &Entry, tag: u32, status: Status) -> bool
    ensures { result ≡ entry_bad settings entry.now tag (bit_in 32 status.outstanding tag) (open_for status.phase tag) }
{
    if status.is_outstanding(tag) {
        busy_bad(settings, entry, tag, status.phase == Some(tag))
    } else {
        idle_bad(entry)
    }
}

// One walk over the thirty-two entries; the number of an entry is its tag.
fn table_bad(settings: Settings, entries: &Entries, status: Status) -> bool
    ensures { result ≡ table_bad settings entries.now status.outstanding status.phase }
{
    entries.iter().enumerate().any(|(tag, entry)| entry_bad(settings, entry, tag as u32, status))
}

#[tactic(auto, unfolding(crate::specs::Contradictory::status_bad))]
fn status_bad(status: Status, set: bool) -> bool
    ensures { result ≡ status_bad status set }
{
    (status.halted || status.held) && status.outstanding != 0
        || status.halted && status.held
        || status.held && set
        || status.phase.is_some_and(|tag| !status.is_outstanding(tag))
}

#[tactic(auto, unfolding(crate::specs::Contradictory::record_bad))]
fn record_bad(errors: &ErrorRecord) -> bool
    ensures { result ≡ record_bad errors.now }
{
    31 < errors.tag
        || errors.nq && errors.tag != 0
        || !errors.set && *errors != ErrorRecord::default()
}

fn row_bad(mask: u16, row: usize, value: u32) -> bool
    ensures { result ≡ row_bad mask row value }
{
    !counters::is_kept(mask, row) && value != 0
}

fn rows_bad(mask: u16, values: &Counters) -> bool
    ensures { result ≡ rows_bad mask values.now }
{
    values
        .iter()
        .enumerate()
        .any(|(row, &value)| row_bad(mask, row, value))
}

/// Whether a state contradicts itself, its settings among it.
#[tactic(auto, unfolding(crate::specs::Contradictory::contradictory))]
pub fn contradicts(
    settings: Settings,
    status: Status,
    entries: &Entries,
    errors: ErrorRecord,
    values: &Counters,
) -> bool
    ensures { result ≡ contradictory settings status entries.now errors values.now }
{
    settings_out(settings)
        || table_bad(settings, entries, status)
        || status_bad(status, errors.set)
        || record_bad(&errors)
        || rows_bad(settings.mask, values)
}

// Of a place that may be no row.
fn is_refused(mask: u16, row: usize) -> bool
    ensures { result ≡ row_refused mask row }
{
    row == usize::from(INTERFACE_CRC_ROW)
        || row == usize::from(COMRESET_ROW)
        || !counters::is_kept(mask, row)
}

/// Row 0, row 9, above 15, or not kept.
pub fn row_refused(mask: u16, row: u8) -> bool
    ensures { result ≡ row_refused mask row }
{
    is_refused(mask, usize::from(row))
}

fn amount_refused(mask: u16, row: usize, amount: u32) -> bool
    ensures { result ≡ amount_refused mask row amount }
{
    amount != 0 && is_refused(mask, row)
}

/// Sixteen amounts, of which some is not 0 and stands at a row that `row_refused` names.
pub fn tally_refused(mask: u16, amounts: &Counters) -> bool
    ensures { result ≡ tally_refused mask amounts.now }
{
    amounts
        .iter()
        .enumerate()
        .any(|(row, &amount)| amount_refused(mask, row, amount))
}
