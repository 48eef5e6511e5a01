// What is read of an input: the settings record, and then an event at a time.
ghost use Rattle.std.specs.Prelude.{◌≡◌, ◌<◌, ◌||◌, is_err, IsTrue, IfOk, OnErr, length, drop, get_or};
ghost use Rattle.std.specs.Io.Buffered.{reader_remaining};
ghost use Rattle.bits.specs.Little.{Bytes};
ghost use Rattle.streams.specs.Fronts.{Filled, StuckBefore};
ghost use Rattle.events.specs.Grammar.{NoEventBegins};
ghost use Rattle.events.specs.Settings.{NoSettingsBegin};
ghost use Rattle.events.specs.Reading.{ReadSettings, ReadNext, ReadAhead, MayWait, BreaksIn};

use crate::InputEnd;
use crate::asked::first_kind;
use crate::event_bytes::EventBytes;
use crate::kinds::{EVENT_LIMIT, Kind};
use crate::settings::{SETTINGS_KIND, SETTINGS_SIZE, settings_of};
use device_state::Settings;
use std::io;
use std::io::{BufReader, Read};
use streams::Watched;

// The body behind the byte of a kind, which was read before and stands first then, as far as the body could be read: so many
// bytes.
fn read_body<R: Read>(reader: &mut Watched<R>, kind: u8, event: &mut [u8]) -> io::Result<usize>
    requires { 0 < length event.old }
    ensures same { length event.new ≡ length event.old }
    ensures first { get_or event.new 0 0 ≡ kind }
    ensures bytes { Bytes event.new }
    ensures ok { IfOk result (λ n. Filled (R.remaining reader.old.inner) (R.remaining reader.new.inner) n (drop 1 event.new)) }
    ensures err { OnErr result (StuckBefore (R.remaining reader.old.inner) (R.remaining reader.new.inner) (drop 1 event.new)) }
    ensures noted { reader.new.failed ≡ (reader.old.failed || is_err result) }
{
    event[0] = kind;
    reader.fill(&mut event[1..])
}

/// The settings record, read to its end, if the input begins with one.
pub(crate) fn read_settings<R: Read>(reader: &mut Watched<R>) -> io::Result<Option<Settings>>
    ensures ok { IfOk result (λ settings. ReadSettings (R.remaining reader.old.inner) settings (R.remaining reader.new.inner)) }
    ensures err { OnErr result (BreaksIn NoSettingsBegin (R.remaining reader.old.inner) (R.remaining reader.new.inner)) }
    ensures noted { reader.new.failed ≡ (reader.old.failed || is_err result) }
{
    let Some(kind) = reader.read_byte()? else {
        return Ok(None);
    };
    if kind != SETTINGS_KIND {
        return Ok(None);
    }
    let mut record = [0; SETTINGS_SIZE];
    if read_body(reader, kind, &mut record)? < SETTINGS_SIZE - 1 {
        return Ok(None);
    }
    Ok(Some(settings_of(&record)))
}

/// Whether the next event lies in a buffer; so it is where so many bytes lie there as the longest event has.
#[inline(always)]
pub(crate) fn lies_there(buffer: &[u8]) -> bool
    ensures { IsTrue result → MayWait buffer.now → ⊥ }
{
    buffer.len() >= EVENT_LIMIT || first_kind(buffer).is_some()
}

/// The next event, where as many bytes as the longest has lie in the reader's buffer, which are copied at once; else nothing is read.
// Its kind is read off the buffer, and not off the copy: that would be made in pieces that overlap.
#[inline(always)]
pub(crate) fn read_ahead<R: Read>(reader: &mut Watched<BufReader<R>>) -> Option<EventBytes>
    ensures read { ReadAhead (reader_remaining R.remaining reader.old.inner) result (reader_remaining R.remaining reader.new.inner) }
    ensures same { reader.new.failed ≡ reader.old.failed }
{
    let front = reader.buffer().first_chunk::<EVENT_LIMIT>()?;
    let (kind, size) = first_kind(front)?;
    let event = EventBytes::new(kind, *front);
    reader.skip(size);
    Some(event)
}

/// The next event, read to its end; or how the input ends.
#[inline(never)]
#[tactic(auto, using(crate::proofs::Nexts::short_body))]
pub(crate) fn read_whole<R: Read>(
    reader: &mut Watched<R>,
) -> io::Result<Result<EventBytes, InputEnd>>
    ensures ok { IfOk result (λ next. ReadNext (R.remaining reader.old.inner) next (R.remaining reader.new.inner)) }
    ensures err { OnErr result (BreaksIn NoEventBegins (R.remaining reader.old.inner) (R.remaining reader.new.inner)) }
    ensures noted { reader.new.failed ≡ (reader.old.failed || is_err result) }
{
    let Some(byte) = reader.read_byte()? else {
        return Ok(Err(InputEnd::Clean));
    };
    let Some(kind) = Kind::from_byte(byte) else {
        return Ok(Err(InputEnd::NoEvent));
    };
    let body = kind.body_length();
    let mut bytes = [0; EVENT_LIMIT];
    if read_body(reader, byte, &mut bytes[..body + 1])? < body {
        return Ok(Err(InputEnd::NoEvent));
    }
    Ok(Ok(EventBytes::new(kind, bytes)))
}
