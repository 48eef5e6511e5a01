// Of readers: the number and the values that each answer tells.
#![tactic(auto, using(crate::proofs::Promised::told))]

ghost use Rattle.std.specs.Prelude.{◌≡◌, ◌<◌, ◌^◌, true, false, Option, List, [], ◌∷◌, ℕ, Result, get_or};
ghost use Rattle.bits.specs.Answer.{bit_number};
ghost use Rattle.refusals.specs.First.{first_of};
ghost use Rattle.refusals.specs.Told.{answer_with, answer_unless};
ghost use Rattle.refusals.specs.declared.reasons.Refusal.{Refusal};
ghost use Rattle.frames.specs.Told.{frame_told};
ghost use Rattle.frames.specs.Read.{read_frame, ladder24, frame_answer, frame_values};
ghost use Rattle.frames.specs.Write.{FrameValue, encode, fits};
ghost use Rattle.frames.specs.RoundTrip.{read_back};
ghost use Rattle.pages.specs.Told10.{record_told};
ghost use Rattle.pages.specs.Page10.{page10, fits10, ladder10, read_log, log_answer};
ghost use Rattle.pages.specs.declared.page10.ErrorLog.{ErrorLog};
ghost use Rattle.counters.specs.Rows.{id_of, kept};
ghost use Rattle.pages.specs.Layout11.{page11};
ghost use Rattle.pages.specs.Told11.{number_told};
ghost use Rattle.pages.specs.Read11.{ladder11, read_counter, counter_answer};
ghost use Rattle.pages.specs.declared.value.CounterValue.{CounterValue};
ghost use Rattle.identity.specs.Words.{fits_identity};
ghost use Rattle.identity.specs.Page.{identity_page};
ghost use Rattle.identity.specs.Told.{page_told};
ghost use Rattle.identity.specs.Read.{ladder_identity, read_identity, identity_answer};
ghost use Rattle.identity.specs.declared.words.Identity.{Identity};

/// Of any bytes a reader tells the number of the first refusal that holds, and no value; where none holds, 0 and the
/// values that stand in the bytes where the rules have them. Of page 11h these are the value and the width of each entry
/// that has the number, so that of a counter that is absent none is told.
pub fn answers_told()
    ensures frames { (l : List ℕ) → frame_answer (read_frame l) ≡ answer_unless (first_of (ladder24 l)) (frame_told l) }
    ensures errors { (l : List ℕ) → log_answer (read_log l) ≡ answer_unless (first_of (ladder10 l)) (record_told l) }
    ensures counters { (l : List ℕ) (number : ℕ) → counter_answer (read_counter l number) ≡ answer_unless (first_of (ladder11 l number)) (number_told l number) }
    ensures identity { (l : List ℕ) → identity_answer (read_identity l) ≡ answer_unless (first_of (ladder_identity l)) (page_told l) }
{}

/// Of what was written a reader tells 0 and the values that were written; of a counter that is not kept, 0 and no value.
pub fn written_told()
    ensures frames { (f : FrameValue) → fits f ≡ true → frame_answer (read_frame (encode f)) ≡ answer_with (frame_values (read_back f)) }
    ensures errors { (f : ErrorLog) → fits10 f ≡ true → log_answer (read_log (page10 f)) ≡ answer_with (bit_number f.nq ∷ f.tag ∷ f.status ∷ f.error ∷ f.task.lba ∷ f.task.device ∷ f.task.count ∷ []) }
    ensures kept { (mask : ℕ) (values : List ℕ) → ((k : ℕ) → get_or values k 0 < 2 ^ 32) → (k : ℕ) → k < 16 → kept mask k ≡ true → counter_answer (read_counter (page11 mask values) (id_of k)) ≡ answer_with (get_or values k 0 ∷ 4 ∷ []) }
    ensures absent { (mask : ℕ) (values : List ℕ) → ((k : ℕ) → get_or values k 0 < 2 ^ 32) → (number : ℕ) → 0 < number → number < 4096 → ((k : ℕ) → k < 16 → id_of k ≡ number → kept mask k ≡ false) → counter_answer (read_counter (page11 mask values) number) ≡ answer_with [] }
    ensures identity { (f : Identity) → fits_identity f ≡ true → identity_answer (read_identity (identity_page f)) ≡ answer_with (1 ∷ f.depth ∷ 1 ∷ f.capacity ∷ []) }
{}

/// Two answers about a counter that tell the same are one: a value, absent and a refusal are never told one for another.
pub fn counters_told_apart()
    ensures { (a b : Result (Option CounterValue) Refusal) → counter_answer a ≡ counter_answer b → a ≡ b }
{}
