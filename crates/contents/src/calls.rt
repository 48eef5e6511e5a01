// Of two calls that differ in contents alone.
#![tactic(auto, using(crate::proofs::Telling::promised))]

ghost use Rattle.contents.specs.Unseen.{CallsAlike, RestStays, DataVeiled, LentVeiled};

/// Two calls of one state that differ in contents alone leave the same state, are refused with the same number or taken
/// alike, and reply the same frames in number, kind and length, and the same bytes but for a send's payload. Behind the
/// replies the reply buffer holds what it held. Calls differ in contents alone whatever the bytes of the medium, of the
/// reply buffer and of a data frame's payload are, if they are as many.
pub fn contents_unseen()
    ensures calls { CallsAlike }
    ensures rest { RestStays }
    ensures data { DataVeiled }
    ensures lent { LentVeiled }
{}
