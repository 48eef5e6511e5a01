// An event, and how it is taken from its bytes.
ghost use Rattle.std.specs.Prelude.{◌≡◌, ◌+◌, length};
ghost use Rattle.events.specs.Kinds.{body_of, event_by_kind};
ghost use Rattle.events.specs.Grammar.{FirstEvent};
ghost use Rattle.events.specs.Reading.{FirstKind};

use crate::kinds::Kind;
use frames::byte_of;
use rules::DeviceEvent;

/// An event behind the settings record.
#[derive(Clone, Copy, Debug, PartialEq, Eq)]
pub enum Event {
    /// A device event.
    OfDevice(DeviceEvent),
    /// Host data of the length due, all of one byte.
    HostData(u8),
    /// 27h, a frame from the host: a command, or control.
    HostRegister([u8; 20]),
    /// 58h, a frame from the host: a test of the link.
    Bist([u8; 12]),
}

/// The event that the bytes of a kind are.
#[inline(always)]
#[tactic(auto, unfolding(crate::specs::Kinds::event_by_kind, crate::specs::Kinds::body_of))]
pub(crate) fn event_by_kind(kind: Kind, event: &[u8]) -> Event
    requires { length event.now ≡ body_of kind + 1 }
    ensures { result ≡ event_by_kind event.now kind }
{
    let device_event = match kind {
        Kind::HostData => return Event::HostData(byte_of(event, 1)),
        Kind::HostRegister => return Event::HostRegister(*event.as_array().unwrap()),
        Kind::Bist => return Event::Bist(*event.as_array().unwrap()),
        Kind::OpenPhase => DeviceEvent::OpenPhase(byte_of(event, 1)),
        Kind::SendData => DeviceEvent::SendData,
        Kind::FinishTags => DeviceEvent::FinishTags(bits::le32(event, 1)),
        Kind::MediaError => DeviceEvent::MediaError {
            tag: byte_of(event, 1),
            error: byte_of(event, 2),
            sector: bits::le32(event, 3),
        },
        Kind::LinkEvent => DeviceEvent::LinkEvent(byte_of(event, 1)),
        Kind::Comreset => DeviceEvent::Comreset,
    };
    Event::OfDevice(device_event)
}

/// The kind of the event that bytes begin with, if all of it is there, and how many bytes it has.
#[inline(always)]
pub(crate) fn first_kind(bytes: &[u8]) -> Option<(Kind, usize)>
    ensures { FirstKind bytes.now result }
{
    let kind = Kind::from_byte(*bytes.first()?)?;
    let size = kind.body_length() + 1;
    if bytes.len() < size {
        return None;
    }
    Some((kind, size))
}

/// The event that bytes begin with, if all of it is there, and how many bytes it has. Settings are none.
pub fn first_event(bytes: &[u8]) -> Option<(Event, usize)>
    ensures { FirstEvent bytes.now result }
{
    let (kind, size) = first_kind(bytes)?;
    Some((event_by_kind(kind, &bytes[..size]), size))
}
