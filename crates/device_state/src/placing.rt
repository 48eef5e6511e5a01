// The place of a command's bytes in the medium, and the payload that goes there.
ghost use Rattle.std.specs.Prelude.{◌≡◌};
ghost use Rattle.device_state.specs.Stored.{place_in, stored_medium};

use frames::payload_of;

/// Bytes of a sector.
pub const SECTOR_SIZE: usize = 512;

/// Where the next byte stands, of a command from sector `first` on.
pub fn place(first: u32, moved: u32) -> usize
    ensures { result ≡ place_in first moved }
{
    SECTOR_SIZE * (first as usize) + (moved as usize)
}

/// The payload behind a frame's head goes to its place in the medium; a frame shorter than its head has none.
#[tactic(auto, using(crate::proofs::Storing::stored_behind), unfolding(crate::specs::Stored::stored_medium))]
pub fn store(medium: &mut [u8], at: usize, frame: &[u8])
    ensures { medium.new ≡ stored_medium at frame.now medium.old }
{
    if let Some((_before, place)) = medium.split_at_mut_checked(at) {
        bits::lay(place, payload_of(frame));
    }
}
