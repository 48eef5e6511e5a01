// What `set` changes of the state that is handed in next.
ghost use Rattle.std.specs.Prelude.{◌≡◌, ◌<◌};
ghost use Rattle.call_scripts.specs.Changes.{field_of, field_words, echo_at, entry_at, record_at, value_at, change_at, change_of};

use crate::names::named;
use crate::words::Words;
use counters::ROWS;
use device_state::{Echo, Entry, ErrorRecord, Settings};

// The rows that a state holds, and the tags.
const LAST_ROW: u8 = (ROWS - 1) as u8;

const LAST_TAG: u8 = (Settings::ENTRIES - 1) as u8;

/// A part of the state, by the word behind `set`.
#[derive(Clone, Copy, Debug, PartialEq, Eq)]
enum Field {
    Depth,
    Capacity,
    Mask,
    Outstanding,
    Phase,
    Halted,
    Held,
    Value,
    Entry,
    Record,
}

/// A change of the state: one that no call need be able to make.
#[derive(Clone, Copy, Debug, PartialEq, Eq)]
pub enum Change {
    /// The depth.
    Depth(u32),
    /// The capacity.
    Capacity(u32),
    /// The mask.
    Mask(u16),
    /// The tags outstanding.
    Outstanding(u32),
    /// The tag of the open phase, if one is open.
    Phase(Option<u32>),
    /// Halted, or not.
    Halted(bool),
    /// Reset held, or not.
    Held(bool),
    /// The value of a row.
    Value {
        /// The row.
        row: u8,
        /// Its events.
        value: u32,
    },
    /// The entry of a tag.
    Entry {
        /// The tag.
        tag: u8,
        /// Its entry.
        entry: Entry,
    },
    /// The error record.
    Record(ErrorRecord),
}

const FIELDS: [(&[u8], Field); 10] = [
    (b"depth", Field::Depth),
    (b"capacity", Field::Capacity),
    (b"mask", Field::Mask),
    (b"outstanding", Field::Outstanding),
    (b"phase", Field::Phase),
    (b"halted", Field::Halted),
    (b"held", Field::Held),
    (b"value", Field::Value),
    (b"entry", Field::Entry),
    (b"record", Field::Record),
];

impl Field {
    fn named(word: &[u8]) -> Option<Field>
        ensures { result ≡ field_of word.now }
    {
        named(&FIELDS, word)
    }

    // How many words the line has that sets it.
    fn words(self) -> usize
        ensures { result ≡ field_words self }
    {
        match self {
            Field::Depth
            | Field::Capacity
            | Field::Mask
            | Field::Outstanding
            | Field::Phase
            | Field::Halted
            | Field::Held => 3,
            Field::Value => 4,
            Field::Entry => 18,
            Field::Record => 15,
        }
    }
}

impl<'a> Words<'a> {
    // Nine bytes of a command, from a place on.
    fn echo(&self, place: usize) -> Option<Echo>
        requires { place < 100 }
        ensures { result ≡ echo_at self.now place }
    {
        Some(Echo {
            b4: self.byte(place)?,
            b5: self.byte(place + 1)?,
            b6: self.byte(place + 2)?,
            b7: self.byte(place + 3)?,
            b8: self.byte(place + 4)?,
            b9: self.byte(place + 5)?,
            b10: self.byte(place + 6)?,
            b12: self.byte(place + 7)?,
            b13: self.byte(place + 8)?,
        })
    }

    fn entry(&self) -> Option<Entry>
        ensures { result ≡ entry_at self.now }
    {
        Some(Entry {
            write: self.flag(3)?,
            first: self.long(4)?,
            count: self.long(5)?,
            moved: self.long(6)?,
            features: self.byte(7)?,
            features_high: self.byte(8)?,
            echo: self.echo(9)?,
        })
    }

    fn record(&self) -> Option<ErrorRecord>
        ensures { result ≡ record_at self.now }
    {
        Some(ErrorRecord {
            set: self.flag(2)?,
            nq: self.flag(3)?,
            tag: self.byte(4)?,
            error: self.byte(5)?,
            echo: self.echo(6)?,
        })
    }

    fn value(&self) -> Option<Change>
        ensures { result ≡ value_at self.now }
    {
        Some(Change::Value {
            row: self.narrow(2, LAST_ROW)?,
            value: self.long(3)?,
        })
    }

    fn change(&self, field: Field) -> Option<Change>
        ensures { result ≡ change_at self.now field }
    {
        match field {
            Field::Depth => Some(Change::Depth(self.long(2)?)),
            Field::Capacity => Some(Change::Capacity(self.long(2)?)),
            Field::Mask => Some(Change::Mask(self.short(2)?)),
            Field::Outstanding => Some(Change::Outstanding(self.long(2)?)),
            Field::Phase => Some(Change::Phase(self.long(2)?.checked_sub(1))),
            Field::Halted => Some(Change::Halted(self.flag(2)?)),
            Field::Held => Some(Change::Held(self.flag(2)?)),
            Field::Value => self.value(),
            Field::Entry => Some(Change::Entry {
                tag: self.narrow(2, LAST_TAG)?,
                entry: self.entry()?,
            }),
            Field::Record => Some(Change::Record(self.record()?)),
        }
    }

    /// What the words behind `set` change.
    pub(crate) fn asked_change(&self) -> Option<Change>
        ensures { result ≡ change_of self.now }
    {
        let field = Field::named(self.word(1)?)?;
        if self.len() != field.words() {
            return None;
        }
        self.change(field)
    }
}
