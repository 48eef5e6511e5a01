// Which sample a refusal is about.
ghost use Rattle.std.specs.Prelude.{◌≡◌, ◌==◌, ◌<◌, ℕ, IfSome, length, map, ltb, drop, position};
ghost use Rattle.std.specs.List.{list_any, zip};
ghost use Rattle.refusals.specs.First.{refusal_in};
ghost use Rattle.refusals.specs.Number.{number, number_told};
ghost use Rattle.pages.specs.Read11.{read_counter};
ghost use Rattle.hourly_table.specs.Samples.{sampled};
ghost use Rattle.hourly_table.specs.Places.{refused_so, place_of};

use crate::reasons::TableRefusal;
use crate::samples::Sample;
use pages::{count_others, read_counter};
use refusals::Refusal;

fn is_number_refused_so(page: &[u8], numbers: &[u16], refusal: Refusal) -> bool
    ensures { result ≡ list_any (λ (n : ℕ). number_told (refusal_in (read_counter page.now n)) == number refusal) numbers.now }
{
    numbers.iter().any(|&number| {
        Refusal::number_told(read_counter(page, number).err()) == refusal.number()
    })
}

// Whether a reader refuses the page with just this, by itself or for one of the numbers.
fn is_refused_so(page: &[u8], numbers: &[u16], refusal: Refusal) -> bool
    ensures { result ≡ refused_so refusal numbers.now page.now }
{
    Refusal::number_told(count_others(page).err()) == refusal.number()
        || is_number_refused_so(page, numbers, refusal)
}

fn first_refused_so(samples: &[Sample<'_>], numbers: &[u16], refusal: Refusal) -> Option<usize>
    ensures { result ≡ position (λ (s : Sample). refused_so refusal numbers.now s.page.now) samples.now }
{
    samples
        .iter()
        .position(|sample| is_refused_so(sample.page, numbers, refusal))
}

// How many samples stand before the first fall of an hour, but for the one that it falls from.
fn first_fall(samples: &[Sample<'_>]) -> Option<usize>
    ensures { result ≡ position (λ (pair : Sample × Sample). ltb pair.1.hour pair.0.hour) (zip samples.now (drop 1 samples.now)) }
{
    samples
        .iter()
        .zip(samples.iter().skip(1))
        .position(|(sample, next)| next.hour < sample.hour)
}

/// The place among the samples of the first that a table is refused so for: whose page a reader refuses with just this, by
/// itself or for one of the numbers; or whose hour is lower than the one before it. None where no sample is to blame.
pub fn place_of(samples: &[Sample<'_>], numbers: &[u16], refusal: TableRefusal) -> Option<usize>
    ensures value { result ≡ place_of (map sampled samples.now) numbers.now refusal }
    ensures inside { IfSome result (λ k. k < length samples.now) }
{
    match refusal {
        TableRefusal::Reading(refusal) => first_refused_so(samples, numbers, refusal),
        TableRefusal::HourBackwards => Some(first_fall(samples)? + 1),
        TableRefusal::TableShort => None,
    }
}
