// The table, written where it has room.
ghost use Rattle.std.specs.Prelude.{◌≡◌, ◌≤◌, map, length};
ghost use Rattle.std.specs.List.Sorted.{IsNonDecreasingBy};
ghost use Rattle.bits.specs.Laid.{overlay};
ghost use Rattle.hourly_table.specs.Samples.{sampled};
ghost use Rattle.hourly_table.specs.Table.{hour_rows, rows_of, table};
ghost use Rattle.hourly_table.specs.Room.{rows_between};

use crate::hours::Hour;
use crate::rows::HEADER;
use crate::samples::Sample;
use crate::sizing::hours_with_rows;
use bits::lay;

// The rows of an hour, and how long they are.
fn write_hour(out: &mut [u8], samples: &[Sample<'_>], numbers: &[u16], hour: u64) -> usize
    requires sorted { IsNonDecreasingBy (λ (s : Sample). s.hour) samples.now }
    requires room { length (hour_rows (map sampled samples.now) numbers.now hour) ≤ length out.old }
    ensures size { result ≡ length (hour_rows (map sampled samples.now) numbers.now hour) }
    ensures bytes { out.new ≡ overlay (hour_rows (map sampled samples.now) numbers.now hour) out.old }
{
    let hour = Hour::new(samples, hour);
    let mut len = 0;
    for &number in numbers {
        let row = hour.row(number);
        lay(&mut out[len..], row.as_str().as_bytes());
        len += row.len();
    }
    len
}

fn write_hours(out: &mut [u8], samples: &[Sample<'_>], numbers: &[u16], first: u64, last: u64)
    requires sorted { IsNonDecreasingBy (λ (s : Sample). s.hour) samples.now }
    requires room { length (rows_between (map sampled samples.now) numbers.now first last) ≤ length out.old }
    ensures { out.new ≡ overlay (rows_between (map sampled samples.now) numbers.now first last) out.old }
{
    let mut len = 0;
    for hour in first..=last {
        len += write_hour(&mut out[len..], samples, numbers, hour);
    }
}

fn write_rows(out: &mut [u8], samples: &[Sample<'_>], numbers: &[u16])
    requires sorted { IsNonDecreasingBy (λ (s : Sample). s.hour) samples.now }
    requires room { length (rows_of (map sampled samples.now) numbers.now) ≤ length out.old }
    ensures { out.new ≡ overlay (rows_of (map sampled samples.now) numbers.now) out.old }
{
    if let Some((first, last)) = hours_with_rows(samples, numbers) {
        write_hours(out, samples, numbers, first, last);
    }
}

/// The header and the rows.
pub(crate) fn write_lines(out: &mut [u8], samples: &[Sample<'_>], numbers: &[u16])
    requires sorted { IsNonDecreasingBy (λ (s : Sample). s.hour) samples.now }
    requires room { length (table (map sampled samples.now) numbers.now) ≤ length out.old }
    ensures { out.new ≡ overlay (table (map sampled samples.now) numbers.now) out.old }
{
    lay(out, &HEADER);
    write_rows(&mut out[HEADER.len()..], samples, numbers);
}
