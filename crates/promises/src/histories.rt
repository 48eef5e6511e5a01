// Of every sequence of calls from power-on, each given the state that the last returned, and each as the one contract of the calls promises it: whatever the settings, the calls, and
// what is lent to them. That the contract of each public function is that one is proved below (history:Contracts).
#![tactic(auto, using(crate::proofs::Promised::histories))]

ghost use Rattle.std.specs.Prelude.{◌≡◌, List, None, ℕ, map};
ghost use Rattle.device_state.specs.declared.shapes.Settings.{Settings};
ghost use Rattle.device.specs.Device.{power_on};
ghost use Rattle.device.specs.Lent.{Lent};
ghost use Rattle.device.specs.declared.state.Outcome.{Outcome};
ghost use Rattle.history.specs.Seen.{seen};
ghost use Rattle.history.specs.Run.{Done, AllTyped, run_from};
ghost use Rattle.history.specs.Follows.{final, lents, history_of, Began};
ghost use Rattle.history.specs.Powered.{Powered};
ghost use Rattle.history.specs.Refused.{Refusals};
ghost use Rattle.history.specs.Answered.{Answers};
ghost use Rattle.history.specs.ReplyRules.{AllReplyRules};
ghost use Rattle.history.specs.Logged.{LogTold};
ghost use Rattle.history.specs.IdentityTold.{IdentityTold};
ghost use Rattle.history.specs.Faithful.{Fates, Ranges, Contents, Sactive, Waiting, Depth, OnePerTag, Counters};
ghost use Rattle.history.specs.Lasting.{HandedOn, Lasting};
ghost use Rattle.history.specs.StateAgrees.{AgreesAsked, AgreesCount, AgreesDue, StateAgrees};
ghost use Rattle.history.specs.Promised.{Always, AtTheEnd};
ghost use Rattle.history.specs.NoChoice.{NoChoice};
ghost use Rattle.promises.specs.Contradicts.{Contradicts};
ghost use Rattle.history.specs.Struck.{taken_of, lent_taken, StruckRun};

/// Every queued command accepted is exactly one of four: outstanding, finished, given up at an error, dropped by a reset; and what is no longer outstanding never changes.
pub fn one_fate()
    ensures { Always (λ s h. Fates (map seen h)) }
{}

/// A finished command's data frames carried each byte of its range once, in rising order, none outside; any other's a beginning of it. Each byte sent is the medium's, each byte brought stands in it, and otherwise it is as it was.
pub fn carried_once()
    ensures ranges { Always (λ s h. Ranges (map seen h)) }
    ensures contents { Always (λ s h. Contents h) }
{}

/// Where each call is lent the medium as the last one left it, the bytes of a finished write stand until another data frame brings a byte there, and a read carries what then stands there.
pub fn finished_writes_stand()
    ensures { Always (λ s h. (m : List ℕ) → HandedOn m h → Lasting m h) }
{}

/// While no error waits to be read SActive names exactly the outstanding tags; while one waits nothing is outstanding, and it names those given up at that error and those answered with an error since.
pub fn sactive_names()
    ensures calm { Always (λ s h. Sactive (map seen h)) }
    ensures waits { Always (λ s h. Waiting (map seen h)) }
{}

/// At most the queue depth is ever outstanding.
pub fn within_depth()
    ensures { Always (λ s h. Depth s.depth (map seen h)) }
{}

/// No two commands of one tag are outstanding.
pub fn one_per_tag()
    ensures { Always (λ s h. OnePerTag (map seen h)) }
{}

/// Every page 11h delivered shows each kept counter's events since its last zeroing, held at 4,294,967,295, and absent for every other number.
pub fn counters_told()
    ensures { Always (λ s h. Counters s.mask h) }
{}

/// Every page 10h delivered tells the error that halted last, as long as no reset came since, however often it is read; otherwise it is blank.
pub fn errors_told()
    ensures { Always (λ s h. LogTold h) }
{}

/// Every page that answered an IDENTIFY DEVICE tells the queue depth and the capacity of power-on.
pub fn identity_told()
    ensures { Always (λ s h. IdentityTold s.depth s.capacity h) }
{}

/// Every call is refused with the first number of 1 to 13 that holds by the history before it, and taken where none does.
pub fn refused_exactly()
    ensures { Always (λ s h. Refusals s.depth s.capacity s.mask h) }
{}

/// Every taken call is answered just the bytes that the history before it calls for, and the rest of the reply buffer is as it was; a refused one is answered nothing.
pub fn answered_exactly()
    ensures { Always (λ s h. Answers s.depth s.capacity s.mask h) }
{}

/// Each reply says what it may: a queued command gets one answer, a finish names what was outstanding and
/// asked for, a page answers a command that asks for one, and a 34h with ERR answers a command.
pub fn reply_rules()
    ensures { Always (λ s h. AllReplyRules h) }
{}

/// Power-on is refused with 1 exactly where its settings are out of bounds, and replies nothing.
pub fn powered_exactly()
    ensures { (s : Settings) → Powered s.depth s.capacity s.mask (power_on s).refusal (power_on s).len }
{}

/// A counter asked for by its number is answered with its events since its last zeroing, held at 4,294,967,295, or absent; the count of outstanding commands with their number; both are refused just as the rules say. The host data that is due is what is left of an open write phase, 8,192 bytes at most.
pub fn polls_told()
    ensures counter { AtTheEnd AgreesAsked }
    ensures outstanding { AtTheEnd AgreesCount }
    ensures due { AtTheEnd (λ s d h. AgreesDue d h) }
{}

/// The device's outstanding tags, halt and counters are what the history tells, and after a power-on that was taken its state never contradicts itself.
pub fn state_told()
    ensures agrees { AtTheEnd StateAgrees }
    ensures consistent { AtTheEnd (λ s d h. (power_on s).refusal ≡ None → Contradicts d → ⊥) }
{}

/// Without its refused calls a sequence goes as before: the same state, and the same results of all the others.
pub fn no_refusal_matters()
    ensures { (s : Settings) (as' : List Lent) → StruckRun s as' }
{}

/// The tables leave a device no choice: two histories of the same calls, each lent the same, that keep them are one.
pub fn no_choice_left()
    ensures { (deep capacity mask : ℕ) → NoChoice deep capacity mask }
{}

/// Whatever the settings, the calls, and what is lent to them, there is such a sequence; `every_fate_occurs` has one whose medium is handed on from call to call.
pub fn exists_always()
    ensures { (s : Settings) (as' : List Lent) → (r : Outcome) × ((xs : List Done) × (Began s r xs × (lents xs ≡ as'))) }
{}
