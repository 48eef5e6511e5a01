// The rows of an hour.
ghost use Rattle.std.specs.Prelude.{◌≡◌, List, ℕ, map, option_map};
ghost use Rattle.std.specs.Borrow.{Bor};
ghost use Rattle.std.specs.List.Sorted.{IsNonDecreasingBy};
ghost use Rattle.hourly_table.specs.Samples.{sampled, page_of_hour, page_before};
ghost use Rattle.hourly_table.specs.Changes.{between};
ghost use Rattle.hourly_table.specs.Rows.{row_text};

use crate::changes::between;
use crate::rows::{ROW_LIMIT, row_text};
use crate::samples::{Sample, page_of_hour};
use arrayvec::ArrayString;

// The page of the hour before; hour 0 has none.
fn page_before<'a>(samples: &[Sample<'a>], hour: u64) -> Option<&'a [u8]>
    requires { IsNonDecreasingBy (λ (s : Sample). s.hour) samples.now }
    ensures { option_map (λ (page : Bor (List ℕ)). page.now) result ≡ page_before (map sampled samples.now) hour }
{
    page_of_hour(samples, hour.checked_sub(1)?)
}

/// An hour, with the page that stands for it and that of the hour before.
#[derive(Clone, Copy, Debug)]
pub(crate) struct Hour<'a> {
    hour: u64,
    before: Option<&'a [u8]>,
    page: Option<&'a [u8]>,
}

impl<'a> Hour<'a> {
    /// Of samples whose hours do not fall.
    pub(crate) fn new(samples: &[Sample<'a>], hour: u64) -> Hour<'a>
        requires { IsNonDecreasingBy (λ (s : Sample). s.hour) samples.now }
        ensures hour { result.hour ≡ hour }
        ensures before { option_map (λ (page : Bor (List ℕ)). page.now) result.before ≡ page_before (map sampled samples.now) hour }
        ensures page { option_map (λ (page : Bor (List ℕ)). page.now) result.page ≡ page_of_hour (map sampled samples.now) hour }
    {
        Hour {
            hour,
            before: page_before(samples, hour),
            page: page_of_hour(samples, hour),
        }
    }

    /// The row of a counter.
    pub(crate) fn row(self, number: u16) -> ArrayString<ROW_LIMIT>
        ensures { result.bytes ≡ row_text self.entry.hour number (between number (option_map (λ (page : Bor (List ℕ)). page.now) self.entry.before) (option_map (λ (page : Bor (List ℕ)). page.now) self.entry.page)) }
    {
        row_text(self.hour, number, between(number, self.before, self.page))
    }
}
