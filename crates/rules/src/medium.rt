// What an act takes from the medium, and what it puts there.
ghost use Rattle.std.specs.Prelude.{◌≡◌};
ghost use Rattle.rules.specs.Medium.{part_of, medium_after};

use crate::acts::Act;

impl Act {
    /// What the act sends of the medium, as far as the medium has it: nothing, but for a send.
    #[tactic(auto, unfolding(crate::specs::Medium::touch_of))]
    pub fn part(self, medium: &[u8]) -> &[u8]
        ensures { result.now ≡ part_of self medium.now }
    {
        let Act::Send(moved) = self else {
            return b"";
        };
        bits::part(medium, moved.at, moved.size)
    }

    /// The payload of the host's data frame goes to the medium, where the act says so.
    #[tactic(auto, unfolding(crate::specs::Medium::touch_of))]
    pub fn store(self, medium: &mut [u8], frame: &[u8])
        ensures { medium.new ≡ medium_after self frame.now medium.old }
    {
        if let Act::Store(moved) = self {
            device_state::store(medium, moved.at, frame);
        }
    }
}
