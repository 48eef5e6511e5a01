// The table: its size, and the table itself.
ghost use Rattle.std.specs.Prelude.{◌≡◌, map};
ghost use Rattle.hourly_table.specs.Samples.{sampled};
ghost use Rattle.hourly_table.specs.Table.{table_size, TableGiven};

use crate::checking::check;
use crate::reasons::TableRefusal;
use crate::samples::Sample;
use crate::sizing::left_behind_table;
use crate::writing::write_lines;

/// How many bytes the table has that `write_table` would write to a buffer of `room` bytes; or why it would refuse.
///
/// # Errors
/// In this order: `PageLength` where a page is not 512 bytes long, `NoCounter` where a number is not 1 to FFFh, `PageSum`
/// where the sum of a page is wrong, `PageDamaged` where a page has an entry that no page may have, or one of the numbers
/// twice; `HourBackwards`; `TableShort`.
pub fn table_size(
    samples: &[Sample<'_>],
    numbers: &[u16],
    room: usize,
) -> Result<usize, TableRefusal>
    ensures { result ≡ table_size (map sampled samples.now) numbers.now room }
{
    check(samples, numbers)?;
    let left = left_behind_table(samples, numbers, room).ok_or(TableRefusal::TableShort)?;
    Ok(room - left)
}

/// Writes the hourly table of the samples to the front of a buffer, and hands back its length: the header
/// `hour,counter,change`, and a row for each hour from the first to the last and each of the numbers, in their order. The
/// field of a change is empty, and never 0, where it is not known: RULES.md, "The hourly table".
///
/// # Errors
/// Those of [`table_size`]. Nothing is written then.
pub fn write_table(
    out: &mut [u8],
    samples: &[Sample<'_>],
    numbers: &[u16],
) -> Result<usize, TableRefusal>
    ensures { TableGiven (map sampled samples.now) numbers.now out.old result out.new }
{
    let size = table_size(samples, numbers, out.len())?;
    write_lines(out, samples, numbers);
    Ok(size)
}
