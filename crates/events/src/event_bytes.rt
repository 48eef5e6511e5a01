// An event as its bytes, between where they are read and where it is played.
ghost use Rattle.std.specs.Prelude.{◌≡◌, ◌+◌, take};
ghost use Rattle.std.specs.Option.{option_map};
ghost use Rattle.events.specs.Kinds.{body_of, event_by_kind};
ghost use Rattle.events.specs.Calls.{frame_of};

use crate::Event;
use crate::asked::event_by_kind;
use crate::kinds::{EVENT_LIMIT, Kind};
use std::marker::Model;

/// An event as its bytes, behind which others may stand; a contract sees the event. The array stands first: behind the byte of the
/// kind it is copied in pieces that overlap, three to six parts of a hundred of a run.
#[derive(Drop)]
pub(crate) struct EventBytes {
    bytes: [u8; EVENT_LIMIT],
    kind: Kind,
}

impl Model for EventBytes {
    ghost use Rattle.std.specs.Prelude.{take, ◌+◌};
    ghost use Rattle.events.specs.Kinds.{body_of, event_by_kind};
    ghost use Rattle.events.specs.declared.asked.Event.{Event};

    ghost Value = { Event };

    ghost view = { λ s. event_by_kind (take (body_of s.kind + 1) s.bytes) s.kind };
}

impl EventBytes {
    /// An event of a kind, which stands first in some bytes.
    #[inline(always)]
    pub(crate) fn new(kind: Kind, bytes: [u8; EVENT_LIMIT]) -> EventBytes
        ensures { result ≡ event_by_kind (take (body_of kind + 1) bytes) kind }
    {
        EventBytes { bytes, kind }
    }

    /// The event.
    #[inline(always)]
    #[tactic(auto, using(crate::proofs::Nexts::short_body))]
    pub(crate) fn event(&self) -> Event
        ensures { result ≡ self.now }
    {
        event_by_kind(self.kind, &self.bytes[..self.kind.body_length() + 1])
    }

    /// The frame that an event carries whole, 27h or 58h: it is lent as it stands, and not copied into an event first.
    #[inline(always)]
    #[tactic(auto, using(crate::proofs::Nexts::short_body), unfolding(crate::specs::Calls::frame_of, crate::specs::Kinds::event_by_kind))]
    pub(crate) fn frame(&self) -> Option<&[u8]>
        ensures { option_map (λ frame. frame.now) result ≡ frame_of self.now }
    {
        match self.kind {
            Kind::HostRegister | Kind::Bist => { Some(&self.bytes[..self.kind.body_length() + 1]) }
            Kind::OpenPhase
            | Kind::SendData
            | Kind::FinishTags
            | Kind::MediaError
            | Kind::LinkEvent
            | Kind::Comreset
            | Kind::HostData => None,
        }
    }
}
