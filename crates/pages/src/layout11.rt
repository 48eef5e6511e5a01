// Log page 11h made by value, for the writer that refuses.
ghost use Rattle.std.specs.Prelude.{◌≡◌, ◌<◌};
ghost use Rattle.pages.specs.Layout11.{row_bytes, page11};

use crate::PAGE_SIZE;
use counters::{Counters, IDENTIFIERS, is_kept};

/// Where the entries of page 11h begin: the four bytes before them are reserved.
pub const ENTRIES_START: usize = 4;

// How many bytes an entry of these rows has: two of its identifier, and four of its value.
const ENTRY_SIZE: usize = 6;

// Above the twelve bits of an identifier's number three say how wide its value is, in pairs of bytes: here two.
const FOUR_BYTES: u16 = 2 << 12;

// A row: 2000h + identifier, then the value.
#[tactic(auto, unfolding(crate::specs::Layout11::row_bytes))]
fn row_bytes(id: u16, value: u32) -> [u8; ENTRY_SIZE]
    requires { id < 4096 }
    ensures { result ≡ row_bytes id value }
{
    let [i0, i1] = (FOUR_BYTES | id).to_le_bytes();
    let [v0, v1, v2, v3] = value.to_le_bytes();
    [i0, i1, v0, v1, v2, v3]
}

// The kept rows stand one behind the other from byte 4 on, and the sum byte comes last.
pub(crate) fn page11_bytes(mask: u16, values: &Counters) -> [u8; PAGE_SIZE]
    ensures { result ≡ page11 mask values.now }
{
    let mut page = [0u8; PAGE_SIZE];
    let rows = IDENTIFIERS.iter().zip(values.iter()).enumerate();
    let kept = rows.filter(|(row, _)| is_kept(mask, *row));
    for (place, (_, (id, value))) in kept.enumerate() {
        bits::lay(
            &mut page[ENTRIES_START + ENTRY_SIZE * place..],
            &row_bytes(*id, *value),
        );
    }
    crate::seal(&mut page);
    page
}
