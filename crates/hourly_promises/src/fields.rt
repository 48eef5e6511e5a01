// Of the fields of the table: which are empty, and what the others say.
#![tactic(auto, using(crate::proofs::Promised::fields))]

ghost use Rattle.std.specs.Prelude.{◌≡◌, ◌+◌, ◌<◌, ◌++◌, ◌∷◌, true, ℕ, List, [], length, get_or, codes, decimal, Some, None, Ok};
ghost use Rattle.refusals.specs.First.{Iff};
ghost use Rattle.pages.specs.Read11.{read_counter};
ghost use Rattle.pages.specs.Top.{at_top};
ghost use Rattle.pages.specs.declared.value.CounterValue.{CounterValue};
ghost use Rattle.hourly_table.specs.Samples.{Sampled, page_of_hour, page_before};
ghost use Rattle.hourly_table.specs.Changes.{change_in};
ghost use Rattle.hourly_table.specs.Counted.{Counted, AllBytes};
ghost use Rattle.hourly_table.specs.Rows.{field_text};
ghost use Rattle.hourly_table.specs.Refused.{input_tests, first_refusal};

/// A field is `0` exactly where a page stands for the hour and one for the hour before, and both have the counter, below the
/// top of its width, with the same value.
pub fn never_zero()
    ensures { (samples : List Sampled) → AllBytes samples → (hour number : ℕ) → Iff (field_text (change_in samples hour number) ≡ codes "0") (Counted samples hour number 0) }
{}

/// A change is told exactly where it was counted so; else the field is empty.
pub fn change_exactly()
    ensures { (samples : List Sampled) (hour number change : ℕ) → Iff (change_in samples hour number ≡ Some change) (Counted samples hour number change) }
{}

/// A field is empty for the first hour; for an hour with no sample, or whose hour before has none; for a counter that
/// either page lacks; where the value has fallen; and where either value is the largest of its width.
pub fn empty_where()
    ensures first { (s : Sampled) (ss : List Sampled) (numbers : List ℕ) (number : ℕ) → first_refusal (input_tests (s ∷ ss) numbers) ≡ None → change_in (s ∷ ss) s.hour number ≡ None }
    ensures no_sample { (samples : List Sampled) (hour number : ℕ) → ((k : ℕ) (d : Sampled) → k < length samples → (get_or samples k d).hour ≡ hour → ⊥) → change_in samples hour number ≡ None }
    ensures none_before { (samples : List Sampled) (hour number : ℕ) → ((k : ℕ) (d : Sampled) → k < length samples → (get_or samples k d).hour ≡ hour → ⊥) → change_in samples (hour + 1) number ≡ None }
    ensures absent_before { (samples : List Sampled) (hour number : ℕ) (before page : List ℕ) → page_before samples hour ≡ Some before → page_of_hour samples hour ≡ Some page → read_counter before number ≡ Ok None → change_in samples hour number ≡ None }
    ensures absent { (samples : List Sampled) (hour number : ℕ) (before page : List ℕ) → page_before samples hour ≡ Some before → page_of_hour samples hour ≡ Some page → read_counter page number ≡ Ok None → change_in samples hour number ≡ None }
    ensures fallen { (samples : List Sampled) (hour number : ℕ) (before page : List ℕ) → page_before samples hour ≡ Some before → page_of_hour samples hour ≡ Some page → (old new : CounterValue) → read_counter before number ≡ Ok (Some old) → read_counter page number ≡ Ok (Some new) → new.value < old.value → change_in samples hour number ≡ None }
    ensures old_top { (samples : List Sampled) (hour number : ℕ) (before page : List ℕ) → page_before samples hour ≡ Some before → page_of_hour samples hour ≡ Some page → (old new : CounterValue) → read_counter before number ≡ Ok (Some old) → read_counter page number ≡ Ok (Some new) → at_top old ≡ true → change_in samples hour number ≡ None }
    ensures new_top { (samples : List Sampled) (hour number : ℕ) (before page : List ℕ) → page_before samples hour ≡ Some before → page_of_hour samples hour ≡ Some page → (old new : CounterValue) → read_counter before number ≡ Ok (Some old) → read_counter page number ≡ Ok (Some new) → at_top new ≡ true → change_in samples hour number ≡ None }
{}

/// Of the samples of an hour the last in the input stands, with the whole of its page: for that hour, and as the page of the
/// hour before for the one behind it. Hour 0 has no hour before it.
pub fn later_stands()
    ensures stands { (xs : List Sampled) (s : Sampled) (ys : List Sampled) → ((k : ℕ) (d : Sampled) → k < length ys → (get_or ys k d).hour ≡ s.hour → ⊥) → page_of_hour (xs ++ s ∷ ys) s.hour ≡ Some s.page }
    ensures before { (xs : List Sampled) (s : Sampled) (ys : List Sampled) → ((k : ℕ) (d : Sampled) → k < length ys → (get_or ys k d).hour ≡ s.hour → ⊥) → page_before (xs ++ s ∷ ys) (s.hour + 1) ≡ Some s.page }
    ensures none_before_0 { (samples : List Sampled) → page_before samples 0 ≡ None }
{}

/// A field is the decimal of what was counted, and is empty where nothing is known to have been.
pub fn field_exactly()
    ensures told { (samples : List Sampled) (hour number c : ℕ) → Counted samples hour number c → field_text (change_in samples hour number) ≡ decimal c }
    ensures gap { (samples : List Sampled) (hour number : ℕ) → ((c : ℕ) → Counted samples hour number c → ⊥) → field_text (change_in samples hour number) ≡ [] }
{}
