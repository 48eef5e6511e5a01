// Of examples, computed: what the definitions give of them is what stands there.
#![tactic(auto, using(crate::proofs::Promised::shown))]

ghost use Rattle.worked_examples.specs.Points.{Hold, examples as all};
ghost use Rattle.worked_examples.specs.Whole.{Placed, whole_frames, WholeShows};
ghost use Rattle.worked_examples.specs.Story.{ExampleShows};
ghost use Rattle.worked_examples.specs.Second.{SecondShows, LongShows};

/// Eleven of the bytes of pages and replies [examples].
pub fn eleven_examples()
    ensures { Hold all }
{}

/// A frame of each kind and both log pages, no two fields alike, and three pages of IDENTIFY DEVICE, byte for byte.
pub fn bytes_in_full()
    ensures frames { Placed whole_frames }
    ensures pages { WholeShows }
{}

/// A run in which every fate occurs.
pub fn every_fate_occurs()
    ensures { ExampleShows }
{}

/// A run with a held reset and its release, and three errors that each wait and are read.
pub fn errors_and_resets_occur()
    ensures { SecondShows }
{}

/// A run that moves a read and a write of 17 sectors, each in two data frames.
pub fn long_moves_occur()
    ensures { LongShows }
{}
