// The settings calls on a state where it stands. Each is refused by the first row of the card that applies, and then changes nothing.
// They are functions and no methods: an inherent impl belongs into the crate of its type, and a trait for one type says no more.
// State and archive come as two: C stores the one and lends the other.
ghost use Rattle.std.specs.Prelude.{◌≡◌, true, false, ◌-◌, MatchResult};
ghost use Rattle.basics.specs.Numbers.{within};
ghost use Rattle.archive.specs.Alarms.{good_slot};
ghost use Rattle.archive.specs.Layout.{defined_files};
ghost use Rattle.gateway.specs.Calls.{answer_of, slot_from, Locked, Stopped, Unlocked, TriggerSet, AlarmSet};

use archive::alarms::Slot;
use basics::card::{DONE, Refusal};
use points::table::is_boolean_or_none;
use state::parts::State;
use state::validity::is_slot_good;

// What C gets of a call, by value: its header fixes the fields, and an exported function can answer no enum.
#[repr(C)]
#[derive(Clone, Copy, Debug, PartialEq, Eq)]
pub struct Answer {
    pub number: u32,
    pub carried: u32,
    pub state: State,
}

impl Answer {
    // What C is told of a call's outcome, with the state that the call leaves.
    // The state is lent, so that its one copy is the answer's: handed by value, and put into each call by `#[inline(always)]`, a Define
    // copies it once more and takes a fifth longer.
    pub fn of(outcome: Result<(), Refusal>, state: &State) -> Answer
        ensures { result ≡ answer_of outcome state.now }
    {
        let (number, carried) = match outcome {
            Ok(()) => (DONE, 0),
            Err(refusal) => (u32::from(refusal), refusal.carried()),
        };
        Answer {
            number,
            carried,
            state: *state,
        }
    }
}

// Lock: unlocked off.
#[tactic(auto, unfolding(crate::specs::Calls::lock_answer))]
pub fn lock(state: &mut State, archive: &[u8]) -> Result<(), Refusal>
    ensures { Locked state.old archive.now (answer_of result state.new) archive.now }
{
    state.check(archive.len())?;
    state.flags.unlocked = false;
    Ok(())
}

// Stop: running off.
// It is no twin to share with Lock: a function that gets the field would be as long as the two are.
#[tactic(auto, unfolding(crate::specs::Calls::stop_answer))]
pub fn stop(state: &mut State, archive: &[u8]) -> Result<(), Refusal>
    ensures { Stopped state.old archive.now (answer_of result state.new) archive.now }
{
    state.check(archive.len())?;
    state.flags.running = false;
    Ok(())
}

// Unlock: unlocked and pending on, while not running.
#[tactic(auto, unfolding(crate::specs::Calls::unlock_answer))]
pub fn unlock(state: &mut State, archive: &[u8]) -> Result<(), Refusal>
    ensures { Unlocked state.old archive.now (answer_of result state.new) archive.now }
{
    state.check(archive.len())?;
    if state.flags.running {
        return Err(Refusal::Running);
    }
    state.flags.unlocked = true;
    state.flags.pending = true;
    Ok(())
}

// The place of one of files 1 to 10, counted from 0.
pub fn place_of(file: u32) -> Result<usize, Refusal>
    ensures { MatchResult result
        (λ place. (within 1 defined_files file ≡ true) × (place ≡ file - 1))
        (λ refusal. (within 1 defined_files file ≡ false) × (refusal ≡ Refusal.File)) }
{
    match file {
        1..=10 => Ok(file as usize - 1),
        _ => Err(Refusal::File),
    }
}

// Trigger: the Boolean whose rise captures a record of a file, or 0 for none. It empties nothing.
#[tactic(auto, using(crate::proofs::Answers::point_small), unfolding(crate::specs::Calls::trigger_answer))]
pub fn trigger(state: &mut State, archive: &[u8], file: u32, point: u32) -> Result<(), Refusal>
    ensures { TriggerSet state.old archive.now file point (answer_of result state.new) archive.now }
{
    state.check(archive.len())?;
    let place = place_of(file)?;
    if !is_boolean_or_none(point) {
        return Err(Refusal::Trigger);
    }
    state.settings.triggers[place] = point as u16;
    Ok(())
}

// The alarm slot of three fields, each of which is checked even when the slot is off.
// Three numbers as C hands them in: a Slot of 16 bits each is made once they are judged.
#[tactic(auto, using(crate::proofs::Answers::slot_small))]
fn slot_of(point: u32, kind: u32, transducer: u32) -> Result<Slot, Refusal>
    ensures { MatchResult result
        (λ slot. (good_slot point kind transducer ≡ true) × (slot ≡ slot_from point kind transducer))
        (λ refusal. (good_slot point kind transducer ≡ false) × (refusal ≡ Refusal.Alarm)) }
{
    if !is_slot_good(point, kind, transducer) {
        return Err(Refusal::Alarm);
    }
    Ok(Slot {
        point: point as u16,
        transducer: transducer as u16,
        kind: kind as u16,
    })
}

// Alarm: a slot's Boolean point (0 is off), type and float point.
#[tactic(auto, unfolding(crate::specs::Calls::alarm_answer))]
pub fn alarm(
    state: &mut State,
    archive: &[u8],
    slot: u32,
    point: u32,
    kind: u32,
    transducer: u32,
) -> Result<(), Refusal>
    ensures { AlarmSet state.old archive.now slot point kind transducer
        (answer_of result state.new) archive.now }
{
    state.check(archive.len())?;
    if !(1..=32).contains(&slot) {
        return Err(Refusal::Alarm);
    }
    let place = slot as usize - 1;
    state.settings.slots[place] = slot_of(point, kind, transducer)?;
    Ok(())
}
