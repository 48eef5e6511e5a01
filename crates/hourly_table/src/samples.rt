// What a table is made from.
ghost use Rattle.std.specs.Prelude.{◌≡◌, List, ℕ, map, option_map};
ghost use Rattle.std.specs.Borrow.{Bor};
ghost use Rattle.std.specs.List.Sorted.{IsNonDecreasingBy};
ghost use Rattle.hourly_table.specs.Samples.{sampled, page_of_hour};

/// A page 11h as it was read, and the hour that it was read in.
#[derive(Clone, Copy, Debug)]
pub struct Sample<'a> {
    /// counted from wherever the reader of the pages likes
    pub hour: u64,
    /// of any length: 512 bytes are asked of it
    pub page: &'a [u8],
}

// The page that stands for an hour, of hours that do not fall: behind it all hours are later.
pub(crate) fn page_of_hour<'a>(samples: &[Sample<'a>], hour: u64) -> Option<&'a [u8]>
    requires { IsNonDecreasingBy (λ (s : Sample). s.hour) samples.now }
    ensures { option_map (λ (page : Bor (List ℕ)). page.now) result ≡ page_of_hour (map sampled samples.now) hour }
{
    let behind = samples.partition_point(|sample| sample.hour <= hour);
    let sample = samples[..behind].last()?;
    (sample.hour == hour).then_some(sample.page)
}
