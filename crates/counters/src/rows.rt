// The sixteen rows of page 11h: which identifier each has, and which are kept. A row is a `usize` where it is a place among the
// sixteen, and a `u8` where it is what an event names, which may be no row.
ghost use Rattle.std.specs.Prelude.{◌≡◌};
ghost use Rattle.counters.specs.Rows.{row_of, kept, keeps_both};

/// How many rows there are: a counter each.
pub const ROWS: usize = 16;

/// The row of counter 001h: commands that failed with an interface CRC error.
pub const INTERFACE_CRC_ROW: u8 = 0;

/// The row of counter 00Ah: signatures sent because of COMRESET.
pub const COMRESET_ROW: u8 = 9;

/// The values of the counters, in the order of the rows.
pub type Counters = [u32; ROWS];

/// The identifiers of the sixteen rows, in their order.
pub const IDENTIFIERS: [u16; ROWS] = [
    0x001, 0x002, 0x003, 0x004, 0x005, 0x006, 0x007, 0x008, 0x009, 0x00A, 0x00B, 0x00D, 0x00F,
    0x010, 0x012, 0x013,
];

/// The row of an identifier, 0 to 15, if it has one.
#[tactic(auto, unfolding(crate::specs::Rows::row_of, crate::specs::Rows::ids))]
pub fn row_of(number: u16) -> Option<usize>
    ensures { result ≡ row_of number }
{
    match number {
        0x001..=0x00B => Some(usize::from(number - 0x001)),
        // 00Ch is no counter: the list in figure 24 of Serial ATA II Extensions 1.2 goes from 00Bh to 00Dh.
        0x00C => None,
        0x00D => Some(11),
        // 00Eh is none: the list goes from 00Dh to 00Fh.
        0x00E => None,
        0x00F..=0x010 => Some(usize::from(number - 0x00F) + 12),
        // 011h is none: the list goes from 010h to 012h.
        0x011 => None,
        0x012..=0x013 => Some(usize::from(number - 0x012) + 14),
        // 000h, which ends the entries of a page, and all above 013h.
        _ => None,
    }
}

/// Whether the mask keeps a row. From 16 on there is none.
pub fn is_kept(mask: u16, row: usize) -> bool
    ensures { result ≡ kept mask row }
{
    row < ROWS && bits::bit(u32::from(mask), row as u32)
}

/// Whether the mask keeps rows 0 and 9, which are always kept.
pub fn keeps_both(mask: u16) -> bool
    ensures { result ≡ keeps_both mask }
{
    is_kept(mask, usize::from(INTERFACE_CRC_ROW)) && is_kept(mask, usize::from(COMRESET_ROW))
}
