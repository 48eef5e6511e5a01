// The same events twice over: by the public calls of `Device`, which take the state and hand it back, and by those of the
// device that is kept. State, refusal, length, reply buffer and medium must be the same behind each.
use device::{Device, Outcome, Sealed};
use device_state::Settings;
use events::{Event, RUN_CAPACITY_LIMIT, SETTINGS_SIZE};
use frames::{DATA_FRAME_LIMIT, DATA_HEAD, DATA_HEAD_SIZE};
use rules::DeviceEvent;

const MEDIUM_LIMIT: usize = (RUN_CAPACITY_LIMIT as usize) * Device::SECTOR_SIZE;

/// How a file's events compare: how many were played, power-on among them, and whether all came to the same.
#[derive(Clone, Copy)]
pub struct Compared {
    pub played: usize,
    pub same: bool,
}

/// What the calls by value came to, the settings record left out: how many, how many of them were refused, and bytes of replies.
#[derive(Clone, Copy, Default)]
pub struct Counted {
    pub played: usize,
    pub refused: usize,
    pub sent: usize,
}

// What a device is lent, and what it leaves there.
#[derive(Drop)]
struct Lent {
    medium: [u8; MEDIUM_LIMIT],
    reply: [u8; Device::REPLY_SIZE],
}

impl Lent {
    fn new() -> Lent {
        Lent {
            medium: [0; MEDIUM_LIMIT],
            reply: [0; Device::REPLY_SIZE],
        }
    }
}

// Host data of the length due; where none is due, 4 bytes, which the device refuses.
fn host_data(device: Device, byte: u8, medium: &mut [u8], reply: &mut [u8]) -> Outcome {
    let mut frame = [byte; DATA_FRAME_LIMIT];
    frame[..DATA_HEAD_SIZE].copy_from_slice(&DATA_HEAD);
    let end = DATA_HEAD_SIZE
        + device
            .data_due()
            .unwrap_or(4)
            .min(DATA_FRAME_LIMIT - DATA_HEAD_SIZE);
    device.host_frame(&frame[..end], medium, reply)
}

// One event to a public call of the device.
fn call(device: Device, event: Event, medium: &mut [u8], reply: &mut [u8]) -> Outcome {
    match event {
        Event::OfDevice(DeviceEvent::OpenPhase(tag)) => device.open(tag, reply),
        Event::OfDevice(DeviceEvent::SendData) => device.send(medium, reply),
        Event::OfDevice(DeviceEvent::FinishTags(set)) => device.finish(set, reply),
        Event::OfDevice(DeviceEvent::MediaError { tag, error, sector }) => {
            device.media_error(tag, error, sector, reply)
        }
        Event::OfDevice(DeviceEvent::LinkEvent(row)) => device.link_event(row),
        Event::OfDevice(DeviceEvent::LinkTally(amounts)) => device.link_tally(amounts),
        Event::OfDevice(DeviceEvent::Comreset) => device.comreset(reply),
        Event::HostData(byte) => host_data(device, byte, medium, reply),
        Event::HostRegister(frame) => device.host_frame(&frame, medium, reply),
        Event::Bist(frame) => device.host_frame(&frame, medium, reply),
    }
}

// The settings record of the input, and what is behind it.
fn split_settings(input: &[u8]) -> Option<(Settings, &[u8])> {
    Some((events::first_settings(input)?, input.get(SETTINGS_SIZE..)?))
}

// The next event, and what is behind it.
fn split_event(input: &[u8]) -> Option<(Event, &[u8])> {
    let (event, size) = events::first_event(input)?;
    Some((event, input.get(size..)?))
}

// The events behind power-on, each played both ways.
fn play_on(device: Device, sealed: Sealed, events: &[u8]) -> Compared {
    let mut device = device;
    let mut sealed = sealed;
    let mut handed = Lent::new();
    let mut kept = Lent::new();
    let size = device.settings.medium_size().min(MEDIUM_LIMIT);
    let mut rest = events;
    let mut compared = Compared {
        played: 1,
        same: device == *sealed.state(),
    };
    for _ in 0..events.len() {
        let Some((event, behind)) = split_event(rest) else {
            break;
        };
        let outcome = call(device, event, &mut handed.medium[..size], &mut handed.reply);
        let answer = events::play(
            &mut sealed,
            event,
            &mut kept.medium[..size],
            &mut kept.reply,
        );
        compared.played = compared.played.saturating_add(1);
        compared.same = compared.same
            && outcome == sealed.state().with(answer)
            && handed.medium == kept.medium
            && handed.reply == kept.reply;
        device = outcome.state;
        rest = behind;
    }
    compared
}

// The events behind power-on, each played by value alone.
fn play_alone(device: Device, events: &[u8]) -> Counted {
    let mut device = device;
    let mut lent = Lent::new();
    let size = device.settings.medium_size().min(MEDIUM_LIMIT);
    let mut rest = events;
    let mut counted = Counted::default();
    for _ in 0..events.len() {
        let Some((event, behind)) = split_event(rest) else {
            break;
        };
        let outcome = call(device, event, &mut lent.medium[..size], &mut lent.reply);
        counted.played = counted.played.saturating_add(1);
        counted.refused = counted
            .refused
            .saturating_add(usize::from(outcome.refusal.is_some()));
        counted.sent = counted.sent.saturating_add(outcome.len);
        device = outcome.state;
        rest = behind;
    }
    counted
}

/// Plays the events of a file by value alone, for what it costs: nothing is compared.
pub fn play(input: &[u8]) -> Counted {
    let Some((settings, events)) = split_settings(input) else {
        return Counted::default();
    };
    if settings.capacity > RUN_CAPACITY_LIMIT {
        return Counted::default();
    }
    let outcome = Device::power_on(settings);
    match outcome.refusal {
        None => play_alone(outcome.state, events),
        Some(_) => Counted::default(),
    }
}

/// Plays the events of a file both ways, from the settings record on.
pub fn compare(input: &[u8]) -> Compared {
    let Some((settings, events)) = split_settings(input) else {
        return Compared {
            played: 0,
            same: true,
        };
    };
    let begun = events::start(settings);
    if settings.capacity > RUN_CAPACITY_LIMIT {
        return Compared {
            played: 1,
            same: begun.is_err(),
        };
    }
    let outcome = Device::power_on(settings);
    match begun {
        Ok(sealed) => play_on(outcome.state, sealed, events),
        Err(refusal) => Compared {
            played: 1,
            same: outcome == Device::default().with(Err(refusal)),
        },
    }
}
