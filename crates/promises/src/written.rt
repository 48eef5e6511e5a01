// Of frames and pages: what is written is read back as it was.
#![tactic(auto, using(crate::proofs::Promised::written))]

ghost use Rattle.std.specs.Prelude.{◌≡◌, ◌<◌, ◌^◌, ◌/◌, ◌⊎◌, true, false, List, ℕ, get_or, Some, None, Ok};
ghost use Rattle.bits.specs.Little.{Bytes};
ghost use Rattle.frames.specs.Read.{read_frame};
ghost use Rattle.frames.specs.Write.{FrameValue, encode, fits};
ghost use Rattle.frames.specs.RoundTrip.{read_back, again, zeroed};
ghost use Rattle.frames.specs.declared.shapes.Frame.{Frame};
ghost use Rattle.pages.specs.Page10.{page10, fits10, read_log};
ghost use Rattle.pages.specs.declared.page10.ErrorLog.{ErrorLog};
ghost use Rattle.bits.specs.Bit.{bit_in};
ghost use Rattle.identity.specs.Words.{fits_identity};
ghost use Rattle.identity.specs.Page.{identity_page};
ghost use Rattle.identity.specs.Read.{all_told, read_identity, word_in};
ghost use Rattle.identity.specs.Made.{MadeOf, SameElse};
ghost use Rattle.identity.specs.declared.words.Identity.{Identity};
ghost use Rattle.identity.specs.declared.reading.Identified.{Identified};
ghost use Rattle.counters.specs.Rows.{id_of, kept};
ghost use Rattle.pages.specs.Layout11.{page11};
ghost use Rattle.pages.specs.Read11.{read_counter, row_value};

/// A frame that can be written is read as it was.
pub fn frames_read_back()
    ensures { (f : FrameValue) → fits f ≡ true → read_frame (encode f) ≡ Ok (read_back f) }
{}

/// A frame that was read is written again as it stood, its bits and bytes that have no name zeroed.
pub fn frames_write_back()
    ensures { (l : List ℕ) → Bytes l → (f : Frame) → read_frame l ≡ Ok f → encode (again l f) ≡ zeroed l }
{}

/// A page 10h that can be written is read as it was.
pub fn errors_read_back()
    ensures { (f : ErrorLog) → fits10 f ≡ true → read_log (page10 f) ≡ Ok f }
{}

/// Of a page 11h each kept counter is read as it was, and a number that is no kept counter's is absent.
pub fn counters_read_back()
    ensures kept { (mask : ℕ) (values : List ℕ) → ((k : ℕ) → get_or values k 0 < 2 ^ 32) → (k : ℕ) → k < 16 → kept mask k ≡ true → read_counter (page11 mask values) (id_of k) ≡ Ok (Some (row_value (get_or values k 0))) }
    ensures absent { (mask : ℕ) (values : List ℕ) → ((k : ℕ) → get_or values k 0 < 2 ^ 32) → (number : ℕ) → 0 < number → number < 4096 → ((k : ℕ) → k < 16 → id_of k ≡ number → kept mask k ≡ false) → read_counter (page11 mask values) number ≡ Ok None }
{}

/// A page of IDENTIFY DEVICE that can be written is read as it was.
pub fn identity_read_back()
    ensures { (f : Identity) → fits_identity f ≡ true → read_identity (identity_page f) ≡ Ok (all_told f) }
{}

/// What a page of IDENTIFY DEVICE has of depth and capacity: word 75 is the depth less one, words 60 and 61 are the
/// capacity as far as 28 bits can tell it, words 100 to 103 the capacity.
pub fn identity_made_of()
    ensures { (f : Identity) → fits_identity f ≡ true → MadeOf f (identity_page f) }
{}

/// Every other byte of it but the sum is the same whatever depth and capacity are; `bytes_in_full` has them.
pub fn identity_same_else()
    ensures { (f g : Identity) → SameElse (identity_page f) (identity_page g) }
{}

/// What a page of IDENTIFY DEVICE does not tell has no value: no queue depth where word 76 is 0000h or FFFFh, or its
/// bit 8 is off, and no capacity where bits 15:14 of word 83 are not 01b or its bit 10 is off.
pub fn untold_is_none()
    ensures queue { (l : List ℕ) (i : Identified) → Ok i ≡ read_identity l → ((word_in l 76 ≡ 0) ⊎ ((word_in l 76 ≡ 0xFFFF) ⊎ (bit_in 16 (word_in l 76) 8 ≡ false))) → i.queue ≡ None }
    ensures capacity { (l : List ℕ) (i : Identified) → Ok i ≡ read_identity l → ((word_in l 83 / 2 ^ 14 ≡ 1 → ⊥) ⊎ (bit_in 16 (word_in l 83) 10 ≡ false)) → i.capacity ≡ None }
{}
