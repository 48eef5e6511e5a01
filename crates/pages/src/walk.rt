// The walk over the entries of page 11h. It is the crate's own: only a page that has passed 20, 23 and 21 is walked.
// Places are even: the walk starts at 4, an identifier takes 2 bytes and a value 2, 4, 6 or 8. So an identifier never
// straddles 508 (`no_straddle`), and it is enough to test where each value ends.
ghost use Rattle.std.specs.Prelude.{◌≡◌, ◌-◌};
ghost use Rattle.std.specs.Iterator.{at_most};
ghost use Rattle.pages.specs.WalkStep.{step_at, Stepped};

use crate::identifier::Identifier;
use crate::{ENTRIES_END, ENTRIES_START};
use refusals::Refusal;

/// An entry of the page: its identifier, where its value starts, and how many bytes the value has.
#[derive(Clone, Copy, Debug, PartialEq, Eq)]
pub(crate) struct WalkEntry {
    pub(crate) id: Identifier,
    pub(crate) start: usize,
    pub(crate) bytes: usize,
}

// What stands at a place: an entry, or what no page may have; `None` at 508 or at 0000h, where no more is to come.
#[tactic(auto, unfolding(crate::specs::WalkStep::step_at, crate::specs::Entries::id_at))]
pub(crate) fn entry_at(page: &[u8], at: usize) -> Option<Result<WalkEntry, Refusal>>
    ensures { result ≡ step_at page.now at }
{
    if ENTRIES_END <= at {
        return None;
    }
    let id = Identifier(bits::le16(page, at));
    if id.0 == 0 {
        return None;
    }
    if id.is_faulty(at) {
        return Some(Err(Refusal::PageDamaged));
    }
    Some(Ok(WalkEntry {
        id,
        start: at + 2,
        bytes: 2 * id.width(),
    }))
}

/// The walk keeps its page and its place together.
#[derive(Debug, Drop)]
pub(crate) struct Walk<'a> {
    page: &'a [u8],
    at: usize,
}

impl<'a> Walk<'a> {
    // From the first entry on.
    pub(crate) fn new(page: &'a [u8]) -> Walk<'a>
        ensures { (result.page ≡ page.entry) × (result.at ≡ ENTRIES_START) }
    {
        Walk {
            page,
            at: ENTRIES_START,
        }
    }
}

impl<'a> Iterator for Walk<'a> {
    ghost use Rattle.pages.specs.declared.TheConstants.{ENTRIES_END};

    type Item = Result<WalkEntry, Refusal>;

    ghost next_gives = { Stepped };

    ghost remaining = { λ walk. at_most (ENTRIES_END - walk.at) };

    // What stands at the walk's place. Behind an entry the walk goes on, and a fault ends it.
    #[tactic(auto, using(crate::proofs::Walking::end_within))]
    fn next(&mut self) -> Option<Result<WalkEntry, Refusal>> {
        let entry = entry_at(self.page, self.at)?;
        self.at = match entry {
            Ok(entry) => entry.start + entry.bytes,
            Err(_) => ENTRIES_END,
        };
        Some(entry)
    }
}
