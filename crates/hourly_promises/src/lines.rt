// Of what is said of a line of samples that is at fault.
#![tactic(auto, using(crate::proofs::Promised::lines))]

ghost use Rattle.std.specs.Prelude.{◌≡◌, ◌+◌, ◌<◌, ◌++◌, ◌∷◌, ℕ, List, [], length, get_or, codes, None, Some, Option, Ok, Err};
ghost use Rattle.hourly_table.specs.Samples.{Sampled};
ghost use Rattle.hourly_run.specs.Entries.{entry_of};
ghost use Rattle.hourly_run.specs.Lines.{lines_of};
ghost use Rattle.hourly_run.specs.Pages.{Shelved};
ghost use Rattle.hourly_run.specs.Said.{line_said};
ghost use Rattle.hourly_run.specs.Samples.{MayTell, SamplesOf};

/// Of a text whose first lines tell samples, and the next one none, that one is said, by its number: one more than there are
/// lines before it.
pub fn line_counted()
    ensures { (shelf : Shelved) (text : List ℕ) (before : List (List ℕ)) (line : List ℕ) (after : List (List ℕ)) (why : List ℕ) → lines_of text ≡ before ++ line ∷ after → ((k : ℕ) → k < length before → (s : Sampled) × MayTell shelf (entry_of (get_or before k [])) (Ok s)) → MayTell shelf (entry_of line) (Err why) → SamplesOf shelf text (Err (line_said shelf (length before + 1) (entry_of line) why)) }
{}

/// A line's number, its hour and the name of its page's file, as they are said.
pub fn line_worded()
    ensures hour { (why : List ℕ) → line_said None 17 (Ok (4711, [])) why ≡ codes "line 17, hour 4711: " ++ why }
    ensures page { (holds : List ℕ → Option (Option (List ℕ))) → line_said (Some holds) 3 (Ok (100, codes "a\u{1b}.page")) (codes "x") ≡ codes "line 3, hour 100, page a\\x1b.page: x" }
    ensures none { (why : List ℕ) → line_said None 1 (Err why) why ≡ codes "line 1: " ++ why }
{}
