// Runs of the programs over streams that fail in mid-course: no fault may read as good news. The streams are fakes, and all that a run is
// to write is written out by hand here.
#![tactic(auto)]

#[cfg(test)]
mod event_runs;
#[cfg(test)]
mod fakes;
#[cfg(test)]
mod page_runs;
#[cfg(test)]
mod script_runs;
