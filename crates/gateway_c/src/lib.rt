// The gateway as firmware links it: the ten calls of `gateway`, exported for C by the library's own clauses. C hands a state in and gets
// it back by value; the library changes it where it stands.
#![tactic(auto)]

ghost use Rattle.gateway.specs.Calls.{Locked, Stopped, Unlocked, TriggerSet, AlarmSet, MadeFresh, Defined, Started};
ghost use Rattle.gateway.specs.Poll.{Polled};
ghost use Rattle.gateway.specs.Scan.{Scanned};

use gateway::calls::{self, Answer};
use gateway::poll::{self, PollAnswer};
use gateway::{files, scan};
use records::stamp::Stamp;
use state::parts::State;

// Fresh: every archive byte 0 and the state of a new gateway; refused, a state of zeros, and memory is not touched.
#[unsafe(no_mangle)]
pub extern "C" fn windrow_gateway_fresh(
    day_first: bool,
    unit: u32,
    firmware: u32,
    archive: &mut [u8],
) -> Answer
    ensures { MadeFresh day_first unit firmware archive.old result archive.new }
{
    match files::fresh(day_first, unit, firmware, archive) {
        Ok(state) => Answer::of(Ok(()), &state),
        Err(refusal) => Answer::of(Err(refusal), &State::fresh(false, 0, 0, 0)),
    }
}

// Lock: unlocked off.
#[unsafe(no_mangle)]
pub extern "C" fn windrow_gateway_lock(mut s: State, archive: &[u8]) -> Answer
    ensures { Locked s archive.now result archive.now }
{
    Answer::of(calls::lock(&mut s, archive), &s)
}

// Stop: running off.
#[unsafe(no_mangle)]
pub extern "C" fn windrow_gateway_stop(mut s: State, archive: &[u8]) -> Answer
    ensures { Stopped s archive.now result archive.now }
{
    Answer::of(calls::stop(&mut s, archive), &s)
}

// Unlock: unlocked and pending on, while not running.
#[unsafe(no_mangle)]
pub extern "C" fn windrow_gateway_unlock(mut s: State, archive: &[u8]) -> Answer
    ensures { Unlocked s archive.now result archive.now }
{
    Answer::of(calls::unlock(&mut s, archive), &s)
}

// Define: replaces one file's draft. A layout is not touched before Start.
#[unsafe(no_mangle)]
pub extern "C" fn windrow_gateway_define(
    mut s: State,
    archive: &[u8],
    file: u32,
    groups: &[u16; 32],
    limit: u16,
) -> Answer
    ensures { Defined s archive.now file groups.now limit result archive.now }
{
    Answer::of(files::define(&mut s, archive, file, groups, limit), &s)
}

// Start: running on, unlocked off. Pending, it lays out the draft and empties every file.
#[unsafe(no_mangle)]
pub extern "C" fn windrow_gateway_start(mut s: State, archive: &mut [u8]) -> Answer
    ensures { Started s archive.old result archive.new }
{
    Answer::of(files::start(&mut s, archive), &s)
}

// Trigger: the Boolean whose rise captures a record of a file, or 0 for none. It empties nothing.
#[unsafe(no_mangle)]
pub extern "C" fn windrow_gateway_trigger(
    mut s: State,
    archive: &[u8],
    file: u32,
    point: u32,
) -> Answer
    ensures { TriggerSet s archive.now file point result archive.now }
{
    Answer::of(calls::trigger(&mut s, archive, file, point), &s)
}

// Alarm: a slot's Boolean point (0 is off), type and float point; each is checked even when the slot is off.
#[unsafe(no_mangle)]
pub extern "C" fn windrow_gateway_alarm(
    mut s: State,
    archive: &[u8],
    slot: u32,
    point: u32,
    kind: u32,
    transducer: u32,
) -> Answer
    ensures { AlarmSet s archive.now slot point kind transducer result archive.now }
{
    Answer::of(
        calls::alarm(&mut s, archive, slot, point, kind, transducer),
        &s,
    )
}

// Scan: the first that is accepted only remembers its Booleans; a later one, if running, captures and logs before it remembers.
#[unsafe(no_mangle)]
pub extern "C" fn windrow_gateway_scan(
    mut s: State,
    archive: &mut [u8],
    table: &[u8],
    stamp: Stamp,
) -> Answer
    ensures { Scanned s archive.old table.now stamp result archive.new table.now }
{
    Answer::of(scan::scan(&mut s, archive, table, stamp), &s)
}

// Poll: answers a frame of any length and content at the start of the reply buffer, from the archive or the live table. Bytes past
// the reply are left as they were.
#[unsafe(no_mangle)]
pub extern "C" fn windrow_gateway_poll(
    mut s: State,
    archive: &[u8],
    table: &[u8],
    frame: &[u8],
    reply: &mut [u8],
) -> PollAnswer
    ensures { Polled s archive.now table.now frame.now reply.old result
        archive.now table.now reply.new }
{
    PollAnswer::of(poll::poll(&mut s, archive, table, frame, reply), &s)
}
