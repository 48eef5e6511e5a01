// Of the hours of the table.
#![tactic(auto, using(crate::proofs::Promised::hours))]

ghost use Rattle.std.specs.Prelude.{◌≡◌, ◌+◌, ◌<◌, ◌∷◌, ℕ, List, [], length, get_or, None};
ghost use Rattle.hourly_table.specs.Samples.{Sampled};
ghost use Rattle.hourly_table.specs.Refused.{input_tests, first_refusal};
ghost use Rattle.hourly_table.specs.Table.{hours_of};

/// The table has every hour from that of the first sample to that of the last, in order, and no other; of no samples it has none.
pub fn every_hour()
    ensures count { (s : Sampled) (ss : List Sampled) (numbers : List ℕ) → first_refusal (input_tests (s ∷ ss) numbers) ≡ None → s.hour + length (hours_of (s ∷ ss)) ≡ (get_or (s ∷ ss) (length ss) s).hour + 1 }
    ensures each { (s : Sampled) (ss : List Sampled) (numbers : List ℕ) → first_refusal (input_tests (s ∷ ss) numbers) ≡ None → (k d : ℕ) → k < length (hours_of (s ∷ ss)) → get_or (hours_of (s ∷ ss)) k d ≡ s.hour + k }
    ensures none { hours_of [] ≡ [] }
{}
