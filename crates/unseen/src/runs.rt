// Of two runs that differ in contents alone.
#![tactic(auto)]

ghost use Rattle.unseen.specs.Sequences.{SequencesAlike};
ghost use Rattle.unseen.specs.Lines.{LinesAlike, OthersWhole};

/// Two sequences of calls from power-on with the same settings that differ, call by call, in contents alone: the same
/// refusals and states, the same frames in number, kind and length, the same reply bytes but for the payloads of sends,
/// log pages among them, and the same counters afterwards.
pub fn sequences_unseen()
    ensures { SequencesAlike }
{}

/// Two event files that differ in the bytes that fill host data alone: the event program prints the same lines of both,
/// and traces that differ in the payloads of sends alone.
pub fn lines_unseen()
    ensures alike { LinesAlike }
    ensures others { OthersWhole }
{}
