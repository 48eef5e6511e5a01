// Of any state that is handed in, whoever made it, also one that no call led to.
#![tactic(auto, using(crate::proofs::Promised::states))]

ghost use Rattle.std.specs.Prelude.{◌≡◌};
ghost use Rattle.device.specs.Counter.{CounterGiven, CountGiven};
ghost use Rattle.device.specs.DataDue.{data_due};
ghost use Rattle.device.specs.Sealing.{Seals};
ghost use Rattle.device.specs.Step.{Given};
ghost use Rattle.device.specs.declared.state.Device.{Device};
ghost use Rattle.history.specs.Serves.{Serves};
ghost use Rattle.history.specs.Tallied.{TallyIsLinks};
ghost use Rattle.promises.specs.Contradicts.{Contradicts};
ghost use Rattle.promises.specs.DueTold.{due_told};
ghost use Rattle.promises.specs.TurnedDown.{PowerSound, TurnedDown};

/// Every call refuses a state with 1, and so do the questions for a counter and for the number of
/// commands and `Sealed::try_from`, exactly if it contradicts itself in one of eighteen ways; all is then
/// as it was. Any other state is kept as it stands. It answers how many tags have their bit on, and of a
/// counter's number what the kept row of that number holds, or that it is absent; 23 is for a number that
/// is not 1 to FFFh. No power-on that is taken, and no taken call, leaves a state that contradicts itself.
pub fn any_state_refused()
    ensures states { (d : Device) → TurnedDown Given CounterGiven CountGiven Seals d }
    ensures power { PowerSound }
{}

/// Any other state, reached or not, serves each outstanding command by the range that the command's own
/// bytes name.
pub fn any_state_serves()
    ensures { (d : Device) → (Contradicts d → ⊥) → Serves Given d }
{}

/// The host data that is due is told of every state: of an open write phase 8,192 bytes, or what is left
/// if less; else none.
pub fn any_state_due()
    ensures { (d : Device) → data_due d ≡ due_told d }
{}

/// A link tally that is taken does what as many link events do, in any order, each of which is taken. It
/// is refused with 13 exactly if the event of a row whose amount is not 0 would be.
pub fn tally_is_links()
    ensures { (d : Device) → TallyIsLinks Given d }
{}
