// A counter's value with its width, and whether it stands at the top of it.
ghost use Rattle.std.specs.Prelude.{◌≡◌};
ghost use Rattle.pages.specs.Top.{top_of, at_top};

/// A counter's value as a page has it.
#[derive(Clone, Copy, Debug, PartialEq, Eq)]
pub struct CounterValue {
    /// how many events it has counted
    pub value: u64,
    /// how many bytes it has on the page: 2, 4, 6 or 8
    pub bytes: usize,
}

// The largest value of so many bytes, of which a value has at most 8.
#[tactic(auto, unfolding(crate::specs::Top::top_of), using(std::proofs::lemmas::Nat::one_shl))]
fn top_of(bytes: usize) -> u64
    ensures { result ≡ top_of bytes }
{
    if 8 <= bytes {
        return u64::MAX;
    }
    (1 << (8 * bytes)) - 1
}

impl CounterValue {
    /// Whether the value is the largest of its width.
    #[tactic(auto, unfolding(crate::specs::Top::at_top))]
    pub fn is_top(self) -> bool
        ensures { result ≡ at_top self }
    {
        self.value == top_of(self.bytes)
    }
}
