// What is asked of the samples and of the numbers, before any row is made.
ghost use Rattle.std.specs.Prelude.{◌≡◌, ℕ, ◌||◌, not, map, length, eqb, ltb, drop};
ghost use Rattle.std.specs.List.{list_any, zip};
ghost use Rattle.std.specs.Result.{is_err};
ghost use Rattle.pages.specs.Read11.{no_number, read_counter};
ghost use Rattle.pages.specs.Others11.{count_others};
ghost use Rattle.pages.specs.Sum.{sum256};
ghost use Rattle.hourly_table.specs.Samples.{sampled};
ghost use Rattle.hourly_table.specs.Refused.{input_tests, first_refusal, unless_refused};
ghost use Rattle.hourly_table.specs.Reading.{page_refused};

use crate::reasons::TableRefusal;
use crate::samples::Sample;
use pages::{PAGE_SIZE, byte_sum, count_others, is_counter_number, read_counter};
use refusals::Refusal;

fn has_wrong_length(samples: &[Sample<'_>]) -> bool
    ensures { result ≡ list_any (λ (s : Sample). not (eqb (length s.page.now) 512)) samples.now }
{
    samples.iter().any(|sample| sample.page.len() != PAGE_SIZE)
}

fn has_no_counter(numbers: &[u16]) -> bool
    ensures { result ≡ list_any no_number numbers.now }
{
    numbers.iter().any(|&number| !is_counter_number(number))
}

fn has_wrong_sum(samples: &[Sample<'_>]) -> bool
    ensures { result ≡ list_any (λ (s : Sample). not (eqb (sum256 s.page.now) 0)) samples.now }
{
    samples.iter().any(|sample| byte_sum(sample.page) != 0)
}

fn has_refused_number(page: &[u8], numbers: &[u16]) -> bool
    ensures { result ≡ list_any (λ (n : ℕ). is_err (read_counter page.now n)) numbers.now }
{
    numbers
        .iter()
        .any(|&number| read_counter(page, number).is_err())
}

// Whether the page is refused, by itself or for one of the numbers.
fn is_refused(page: &[u8], numbers: &[u16]) -> bool
    ensures { result ≡ page_refused numbers.now page.now }
{
    count_others(page).is_err() || has_refused_number(page, numbers)
}

fn has_refused_page(samples: &[Sample<'_>], numbers: &[u16]) -> bool
    ensures { result ≡ list_any (λ (s : Sample). page_refused numbers.now s.page.now) samples.now }
{
    samples
        .iter()
        .any(|sample| is_refused(sample.page, numbers))
}

fn has_fallen_hour(samples: &[Sample<'_>]) -> bool
    ensures { result ≡ list_any (λ (pair : Sample × Sample). ltb pair.1.hour pair.0.hour) (zip samples.now (drop 1 samples.now)) }
{
    samples
        .iter()
        .zip(samples.iter().skip(1))
        .any(|(sample, next)| next.hour < sample.hour)
}

/// Why the samples or the numbers are refused, if they are: the first of a reader's tests that holds, each over all of
/// them, and then an hour that has fallen.
pub(crate) fn check(samples: &[Sample<'_>], numbers: &[u16]) -> Result<(), TableRefusal>
    ensures { result ≡ unless_refused (first_refusal (input_tests (map sampled samples.now) numbers.now)) tt }
{
    if has_wrong_length(samples) {
        return Err(TableRefusal::Reading(Refusal::PageLength));
    }
    if has_no_counter(numbers) {
        return Err(TableRefusal::Reading(Refusal::NoCounter));
    }
    if has_wrong_sum(samples) {
        return Err(TableRefusal::Reading(Refusal::PageSum));
    }
    // Whatever else a reader refuses a page for is 22.
    if has_refused_page(samples, numbers) {
        return Err(TableRefusal::Reading(Refusal::PageDamaged));
    }
    if has_fallen_hour(samples) {
        return Err(TableRefusal::HourBackwards);
    }
    Ok(())
}
