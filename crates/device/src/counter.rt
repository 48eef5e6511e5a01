// A counter by its number, and how many commands are outstanding.
ghost use Rattle.device.specs.Counter.{CounterGiven, CountGiven};

use crate::state::Device;
use pages::is_counter_number;
use refusals::{Refusal, check};

impl Device {
    /// The value of the counter with this number, `None` for one that is not kept.
    ///
    /// # Errors
    /// The first that holds of `Contradiction` (1), `NoCounter` (23): a number that is not 1 to FFFh.
    #[tactic(auto, unfolding(crate::specs::Counter::counter_of, counters::specs::Shown::shown_for, refusals::specs::First::first_of))]
    pub fn counter(&self, number: u16) -> Result<Option<u64>, Refusal>
        ensures { CounterGiven self.now number result }
    {
        check(&[
            (self.contradicts(), Refusal::Contradiction),
            (!is_counter_number(number), Refusal::NoCounter),
        ])?;
        let row = counters::row_of(number);
        Ok(counters::shown_at(self.settings.mask, &self.values, row))
    }

    /// How many commands are outstanding, 0 to 32.
    ///
    /// # Errors
    /// `Contradiction` (1): a state that contradicts itself is not read as idle.
    #[tactic(auto, unfolding(crate::specs::Counter::count_of, refusals::specs::First::first_of))]
    pub fn outstanding_count(&self) -> Result<u32, Refusal>
        ensures { CountGiven self.now result }
    {
        if self.contradicts() {
            return Err(Refusal::Contradiction);
        }
        Ok(self.status.outstanding.count_ones())
    }
}
