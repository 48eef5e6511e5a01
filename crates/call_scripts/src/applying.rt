// A change made to a state.
ghost use Rattle.std.specs.Prelude.{◌≡◌, slice_set};
ghost use Rattle.call_scripts.specs.Applying.{changed};

use crate::changes::Change;
use counters::Counters;
use device::Device;

fn put_value(values: &mut Counters, row: u8, value: u32)
    ensures { values.new ≡ slice_set values.old row value }
{
    let place = usize::from(row);
    if place < values.len() {
        values[place] = value;
    }
}

impl Change {
    /// Makes the change; of a row or a tag that the state does not hold, none.
    pub(crate) fn apply(self, device: &mut Device)
        ensures { device.new ≡ changed device.old self }
    {
        match self {
            Change::Depth(depth) => device.settings.depth = depth,
            Change::Capacity(capacity) => device.settings.capacity = capacity,
            Change::Mask(mask) => device.settings.mask = mask,
            Change::Outstanding(outstanding) => device.status.outstanding = outstanding,
            Change::Phase(phase) => device.status.phase = phase,
            Change::Halted(halted) => device.status.halted = halted,
            Change::Held(held) => device.status.held = held,
            Change::Value { row, value } => {
                put_value(&mut device.values, row, value);
            }
            Change::Entry { tag, entry } => {
                device_state::put_entry(&mut device.entries, u32::from(tag), entry);
            }
            Change::Record(errors) => device.errors = errors,
        }
    }
}
