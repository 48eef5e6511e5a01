// How much of a room the rows take. What is left of it is kept, and no sum of lengths, which would not fit for the longest gaps.
ghost use Rattle.std.specs.Prelude.{◌≡◌, map};
ghost use Rattle.std.specs.List.Sorted.{IsNonDecreasingBy};
ghost use Rattle.hourly_table.specs.Samples.{sampled};
ghost use Rattle.hourly_table.specs.Table.{hour_rows, rows_of, table};
ghost use Rattle.hourly_table.specs.Room.{left_of, rows_between, rows_in};

use crate::hours::Hour;
use crate::rows::HEADER;
use crate::samples::Sample;

/// The first hour and the last; none where there are no rows. Of no number asked the hours are not gone over: they have no
/// rows that would fill a room, and may be 2^64.
pub(crate) fn hours_with_rows(samples: &[Sample<'_>], numbers: &[u16]) -> Option<(u64, u64)>
    ensures { rows_in (map sampled samples.now) numbers.now result ≡ rows_of (map sampled samples.now) numbers.now }
{
    if numbers.is_empty() {
        return None;
    }
    Some((samples.first()?.hour, samples.last()?.hour))
}

// What is left of the room behind the rows of an hour; none where they do not fit.
fn left_behind_hour(
    samples: &[Sample<'_>],
    numbers: &[u16],
    hour: u64,
    room: usize,
) -> Option<usize>
    requires { IsNonDecreasingBy (λ (s : Sample). s.hour) samples.now }
    ensures { result ≡ left_of room (hour_rows (map sampled samples.now) numbers.now hour) }
{
    let hour = Hour::new(samples, hour);
    let mut left = room;
    for &number in numbers {
        left = left.checked_sub(hour.row(number).len())?;
    }
    Some(left)
}

// And of all hours. A gap of hours ends with the room, since each row takes some of it.
fn left_behind_hours(
    samples: &[Sample<'_>],
    numbers: &[u16],
    first: u64,
    last: u64,
    room: usize,
) -> Option<usize>
    requires { IsNonDecreasingBy (λ (s : Sample). s.hour) samples.now }
    ensures { result ≡ left_of room (rows_between (map sampled samples.now) numbers.now first last) }
{
    let mut left = room;
    for hour in first..=last {
        left = left_behind_hour(samples, numbers, hour, left)?;
    }
    Some(left)
}

fn left_behind_rows(samples: &[Sample<'_>], numbers: &[u16], room: usize) -> Option<usize>
    requires { IsNonDecreasingBy (λ (s : Sample). s.hour) samples.now }
    ensures { result ≡ left_of room (rows_of (map sampled samples.now) numbers.now) }
{
    match hours_with_rows(samples, numbers) {
        Some((first, last)) => left_behind_hours(samples, numbers, first, last, room),
        None => Some(room),
    }
}

/// What is left of the room behind the table; none where it does not fit.
pub(crate) fn left_behind_table(
    samples: &[Sample<'_>],
    numbers: &[u16],
    room: usize,
) -> Option<usize>
    requires { IsNonDecreasingBy (λ (s : Sample). s.hour) samples.now }
    ensures { result ≡ left_of room (table (map sampled samples.now) numbers.now) }
{
    left_behind_rows(samples, numbers, room.checked_sub(HEADER.len())?)
}
