// The table of entries.
ghost use Rattle.std.specs.Prelude.{◌≡◌};
ghost use Rattle.device_state.specs.Table.{entry_of, table_with, table_without};

use crate::shapes::{Entries, Entry};

/// The entry of a tag; of a tag that has none, an idle one.
pub fn entry_of(entries: &Entries, tag: u32) -> Entry
    ensures { result ≡ entry_of entries.now tag }
{
    entries.get(tag as usize).copied().unwrap_or_default()
}

/// The table with the entry of a tag anew.
#[tactic(auto, using(crate::proofs::TableLaws::set_placed, crate::proofs::TableLaws::none_placed))]
pub fn put_entry(entries: &mut Entries, tag: u32, entry: Entry)
    ensures { entries.new ≡ table_with entries.old tag entry }
{
    let place = tag as usize;
    if place < entries.len() {
        entries[place] = entry;
    }
}

/// The table without the entries of a set of tags: one walk over the set, the lowest tag first.
pub fn clear_entries(entries: &mut Entries, set: u32)
    ensures { entries.new ≡ table_without entries.old set }
{
    let mut rest = set;
    while rest != 0 {
        let tag = rest.trailing_zeros();
        entries[tag as usize] = Entry::default();
        rest &= !(1 << tag);
    }
}
