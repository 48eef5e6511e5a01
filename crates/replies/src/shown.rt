// What an act's replies show, over plain values.
ghost use Rattle.std.specs.Prelude.{◌≡◌};
ghost use Rattle.replies.specs.Replies.{log_of};

use crate::status::READY_ERROR;
use counters::Counters;
use device_state::ErrorRecord;
use frames::Task;
use identity::Identity;
use pages::ErrorLog;

/// What replies show of the state. A contract sees the record and the counters themselves (`state_lent`).
#[derive(Clone, Copy, Debug)]
pub struct Shown<'a> {
    /// whether the sweep goes before page 10h
    pub halted: bool,
    /// depth and capacity, of which the page of IDENTIFY DEVICE is made
    pub identity: Identity,
    /// bit r keeps row r of page 11h
    pub mask: u16,
    /// what page 10h shows
    pub errors: &'a ErrorRecord,
    /// what page 11h shows, by its rows
    pub values: &'a Counters,
}

// The record as page 10h shows it.
pub(crate) fn log_of(errors: &ErrorRecord) -> ErrorLog
    ensures { result ≡ log_of errors.now }
{
    if !errors.set {
        return ErrorLog {
            nq: true,
            ..ErrorLog::default()
        };
    }
    ErrorLog {
        nq: errors.nq,
        tag: errors.tag,
        status: READY_ERROR,
        error: errors.error,
        task: Task::from(errors.echo),
    }
}
