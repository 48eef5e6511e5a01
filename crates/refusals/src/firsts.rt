// The first of a list of tests that holds.
ghost use Rattle.std.specs.Prelude.{◌≡◌};
ghost use Rattle.refusals.specs.First.{first_of, unless};

use crate::reasons::Refusal;

/// Refused by the first test that holds; taken where none does.
#[tactic(auto, unfolding(crate::specs::First::first_of))]
pub fn check(tests: &[(bool, Refusal)]) -> Result<(), Refusal>
    ensures { result ≡ unless (first_of tests.now) tt }
{
    for (holds, refusal) in tests {
        if *holds {
            return Err(*refusal);
        }
    }
    Ok(())
}
