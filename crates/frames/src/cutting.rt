// Several frames one behind the other in a buffer.
ghost use Rattle.std.specs.Prelude.{◌≡◌};
ghost use Rattle.std.specs.Iterator.{YieldsFirstRef, item_count};
ghost use Rattle.frames.specs.Cut.{first_length, cut};

use crate::shared::byte_of;
use crate::sizes::fixed_size;
use std::marker::Model;

#[tactic(auto, unfolding(crate::specs::Cut::first_length))]
fn first_length(bytes: &[u8]) -> usize
    ensures { result ≡ first_length bytes.now }
{
    let size = fixed_size(byte_of(bytes, 0));
    size.unwrap_or(bytes.len()).min(bytes.len())
}

/// The frames of a buffer, each as its bytes, seen as the list of those that are left.
#[derive(Debug, Drop)]
pub struct Frames<'a> {
    rest: &'a [u8],
}

impl<'a> Model for Frames<'a> {
    ghost use Rattle.std.specs.Prelude.{ℕ, List};
    ghost use Rattle.frames.specs.Cut.{cut};

    ghost Value = { List (List ℕ) };

    ghost view = { λ frames. cut frames.rest.now };
}

impl<'a> Iterator for Frames<'a> {
    type Item = &'a [u8];

    ghost next_gives = { YieldsFirstRef (λ left. left) };

    ghost remaining = { item_count (λ left. left) };

    #[tactic(auto, using(crate::proofs::CutLaws::cutting))]
    fn next(&mut self) -> Option<&'a [u8]> {
        if self.rest.is_empty() {
            return None;
        }
        let (frame, rest) = self.rest.split_at(first_length(self.rest));
        self.rest = rest;
        Some(frame)
    }
}

/// The frames that stand one behind the other in `bytes`: each as long as its kind says; a data frame, an unknown kind and
/// a frame cut short take what is left.
pub fn frames_of(bytes: &[u8]) -> Frames<'_>
    ensures { result ≡ cut bytes.now }
{
    Frames { rest: bytes }
}
