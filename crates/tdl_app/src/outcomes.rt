// What a run comes to, and its log.
ghost use Rattle.std.specs.Prelude.{◌≡◌, ◌≤◌, ◌==◌, if◌then◌else◌, [], OnErr, OnOk};
ghost use Rattle.tdl_log.specs.Log.{log_of};
ghost use Rattle.tdl_log.specs.LogText.{log_text};
ghost use Rattle.tdl_answer.specs.Account.{account};
ghost use Rattle.tdl_answer.specs.Ends.{Logs};

use std::alloc::Global;
use tdl_core::History;
use tdl_io::{Failed, Sink};
use tdl_log::{Ends, Sheet, put_log};

pub(crate) const DONE: u8 = 0;

pub(crate) const BAD_WORDS: u8 = 1;

pub(crate) const REFUSED: u8 = 2;

pub(crate) const OUT_OF_MEMORY: u8 = 3;

pub(crate) const FAULT: u8 = 4;

pub(crate) const INPUT_FAULT: u8 = 5;

pub(crate) const SPENT: u8 = 6;

const LOG_FAULT: u8 = 7;

/// How a run and its ports ended, and what it accepted. The status is 0 where it did what the words ask for, 1
/// where they are not in the word grammar, 2 where the pattern or the arc was refused, 3 where it
/// ran out of memory, 4 where a put into `out` or a send failed, 5 where the input failed, 6 where
/// the input is longer than 2^24 bytes, which are played, and 7 where a put into `log` failed; the
/// first of 3 to 7 where several hold.
#[derive(Drop)]
pub struct Outcome {
    pub status: u8,
    pub history: History,
    pub ends: Ends,
}

// A run that accepts nothing ended with this status.
pub(crate) fn without_history(alloc: Global, status: u8) -> Outcome
    ensures status { result.status ≡ status }
    ensures history { result.history.entries ≡ [] }
    ensures ends { result.ends ≡ [] }
{
    Outcome {
        status,
        history: History::new(alloc),
        ends: Ends::new(),
    }
}

// Puts the log of what was played, which called for this status.
pub(crate) fn put_logged<K: Sink>(playing: u8, sheet: Sheet, log: &mut K) -> Outcome
    ensures history { result.history.entries ≡ sheet.history.entries }
    ensures ends { result.ends ≡ sheet.ends }
    ensures logged { Logs (log_text (log_of sheet)) playing result.status (account K.held K.faults log.old log.new) }
    ensures kept { K.faults log.old ≤ K.faults log.new }
{
    let logged = put_log(&sheet, log);
    let Sheet { history, ends, .. } = sheet;
    Outcome {
        status: logged_status(playing, logged),
        history,
        ends,
    }
}

// The status of a run whose log was put or not.
fn logged_status(playing: u8, logged: Result<(), Failed>) -> u8
    ensures put { OnOk logged (result ≡ playing) }
    ensures failed { OnErr logged (result ≡ (if playing == 0 then 7 else playing)) }
{
    match logged {
        Err(Failed) if playing == DONE => LOG_FAULT,
        _ => playing,
    }
}
