// A line: an hour, a blank, and what stands behind it.
ghost use Rattle.std.specs.Prelude.{◌≡◌, ℕ, List, option_map};
ghost use Rattle.std.specs.Borrow.{Bor};
ghost use Rattle.hourly_run.specs.Entries.{whole_line, blank_in, entry_of};
ghost use Rattle.hourly_run.specs.Kept.{entry_told};

use crate::hours::hour_of;

// Without its LF; none where it has none, and may be cut.
#[tactic(auto, unfolding(crate::specs::Entries::whole_line))]
fn whole_line(line: &[u8]) -> Option<&[u8]>
    ensures { option_map (λ (l : Bor (List ℕ)). l.now) result ≡ whole_line line.now }
{
    let (last, entry) = line.split_last()?;
    if *last != b'\n' {
        return None;
    }
    Some(entry)
}

fn blank_in(entry: &[u8]) -> Option<usize>
    ensures { result ≡ blank_in entry.now }
{
    entry.iter().position(|&byte| byte == b' ')
}

/// The hour of a line that ends in LF, and what stands behind its first blank; or what is wrong with the line, in words.
#[tactic(auto, unfolding(crate::specs::Entries::entry_of))]
pub(crate) fn entry_of(line: &[u8]) -> Result<(u64, &[u8]), &'static [u8]>
    ensures { entry_told result ≡ entry_of line.now }
{
    let Some(entry) = whole_line(line) else {
        return Err(b"it does not end in LF");
    };
    let Some(blank) = blank_in(entry) else {
        return Err(b"it has no blank");
    };
    match hour_of(&entry[..blank]) {
        Some(hour) => Ok((hour, &entry[blank + 1..])),
        None => Err(b"what stands before its first blank is no hour"),
    }
}
