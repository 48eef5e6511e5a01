// The settings record.
ghost use Rattle.std.specs.Prelude.{◌≡◌};
ghost use Rattle.events.specs.Settings.{settings_of, FirstSettings};

use device_state::Settings;

/// The bytes of a settings record.
pub const SETTINGS_SIZE: usize = 8;

// Its first byte.
pub(crate) const SETTINGS_KIND: u8 = 0x00;

/// The settings that a record's bytes say.
#[tactic(auto, unfolding(crate::specs::Settings::settings_of))]
pub(crate) fn settings_of(bytes: &[u8]) -> Settings
    ensures { result ≡ settings_of bytes.now }
{
    Settings {
        depth: u32::from(frames::byte_of(bytes, 1)),
        capacity: bits::le32(bytes, 2),
        mask: bits::le16(bytes, 6),
    }
}

/// The settings record that bytes begin with, if all of it is there.
pub fn first_settings(bytes: &[u8]) -> Option<Settings>
    ensures { FirstSettings bytes.now result }
{
    if bytes.len() < SETTINGS_SIZE || bytes[0] != SETTINGS_KIND {
        return None;
    }
    Some(settings_of(bytes))
}
