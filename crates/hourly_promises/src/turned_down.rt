// Of the refusals of the table.
#![tactic(auto, using(crate::proofs::Promised::refusals))]

ghost use Rattle.std.specs.Prelude.{◌≡◌, ◌+◌, ◌<◌, ◌≤◌, false, ℕ, List, length, get_or, is_err, Ok, Err};
ghost use Rattle.refusals.specs.declared.reasons.Refusal.TheVariants.{PageLength, PageSum, PageDamaged};
ghost use Rattle.pages.specs.Sum.{sum256};
ghost use Rattle.pages.specs.Read11.{read_counter};
ghost use Rattle.pages.specs.Others11.{count_others};
ghost use Rattle.hourly_table.specs.Samples.{Sampled};
ghost use Rattle.hourly_table.specs.Refused.{FirstGiven, first_refusal};
ghost use Rattle.hourly_table.specs.Places.{place_of};
ghost use Rattle.hourly_table.specs.Table.{table, table_tests, table_size};
ghost use Rattle.hourly_table.specs.declared.reasons.TableRefusal.TheVariants.{Reading, HourBackwards};
ghost use Rattle.hourly_promises.specs.Firsts.{FirstSo, FirstFall, RefusedFor};

/// 20, 23, 21, 22, 70 and 71 are each given exactly when their test holds and none in front of it does, and none exactly
/// when none holds.
pub fn first_exactly()
    ensures { (samples : List Sampled) (numbers : List ℕ) (room : ℕ) → FirstGiven (table_tests samples numbers room) (first_refusal (table_tests samples numbers room)) }
{}

/// Where a table is given no page was refused for a number asked: an empty field hides no refusal.
pub fn all_read()
    ensures { (samples : List Sampled) (numbers : List ℕ) (room size : ℕ) → Ok size ≡ table_size samples numbers room → (i : ℕ) (s : Sampled) → i < length samples → (j : ℕ) → j < length numbers → is_err (read_counter (get_or samples i s).page (get_or numbers j 0)) ≡ false }
{}

/// A table is given where nothing is wrong: each number is 1 to FFFh, each page is accepted by itself and for each
/// number, no hour is lower than the one before it, and the table fits the room.
pub fn table_given()
    ensures { (samples : List Sampled) (numbers : List ℕ) (room : ℕ) → ((j : ℕ) → j < length numbers → 1 ≤ get_or numbers j 0) → ((j : ℕ) → j < length numbers → get_or numbers j 0 < 4096) → ((i : ℕ) (s : Sampled) → i < length samples → is_err (count_others (get_or samples i s).page) ≡ false) → ((i : ℕ) (s : Sampled) → i < length samples → (j : ℕ) → j < length numbers → is_err (read_counter (get_or samples i s).page (get_or numbers j 0)) ≡ false) → ((i : ℕ) (s : Sampled) → i + 1 < length samples → (get_or samples i s).hour ≤ (get_or samples (i + 1) s).hour) → length (table samples numbers) ≤ room → table_size samples numbers room ≡ Ok (length (table samples numbers)) }
{}

/// And only there: where a table is given its size is told, it fits the room, each number is 1 to FFFh, each page is
/// accepted, and no hour is lower than the one before it.
pub fn given_only()
    ensures numbers { (samples : List Sampled) (numbers : List ℕ) (room size : ℕ) → Ok size ≡ table_size samples numbers room → (j : ℕ) → j < length numbers → (1 ≤ get_or numbers j 0) × (get_or numbers j 0 < 4096) }
    ensures pages { (samples : List Sampled) (numbers : List ℕ) (room size : ℕ) → Ok size ≡ table_size samples numbers room → (i : ℕ) (s : Sampled) → i < length samples → is_err (count_others (get_or samples i s).page) ≡ false }
    ensures hours { (samples : List Sampled) (numbers : List ℕ) (room size : ℕ) → Ok size ≡ table_size samples numbers room → (i : ℕ) (s : Sampled) → i + 1 < length samples → (get_or samples i s).hour ≤ (get_or samples (i + 1) s).hour }
    ensures fits { (samples : List Sampled) (numbers : List ℕ) (room size : ℕ) → Ok size ≡ table_size samples numbers room → length (table samples numbers) ≤ room }
    ensures size { (samples : List Sampled) (numbers : List ℕ) (room size : ℕ) → Ok size ≡ table_size samples numbers room → size ≡ length (table samples numbers) }
{}

/// Which sample a refusal is about, as it is said: the first whose page is not 512 bytes long (20), has a wrong sum (21), or is
/// refused by a reader, by itself or for a number asked (22); or the first of a lower hour than the one before it (70).
pub fn first_blamed()
    ensures length { (samples : List Sampled) (numbers : List ℕ) (room : ℕ) → Err (Reading PageLength) ≡ table_size samples numbers room → FirstSo samples (λ s. length s.page ≡ 512 → ⊥) (place_of samples numbers (Reading PageLength)) }
    ensures sum { (samples : List Sampled) (numbers : List ℕ) (room : ℕ) → Err (Reading PageSum) ≡ table_size samples numbers room → FirstSo samples (λ s. sum256 s.page ≡ 0 → ⊥) (place_of samples numbers (Reading PageSum)) }
    ensures damage { (samples : List Sampled) (numbers : List ℕ) (room : ℕ) → Err (Reading PageDamaged) ≡ table_size samples numbers room → FirstSo samples (λ s. RefusedFor numbers s.page) (place_of samples numbers (Reading PageDamaged)) }
    ensures fall { (samples : List Sampled) (numbers : List ℕ) (room : ℕ) → Err HourBackwards ≡ table_size samples numbers room → FirstFall samples (place_of samples numbers HourBackwards) }
{}
