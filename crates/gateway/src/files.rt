// The calls that make and lay out files: Fresh, Define and Start.
// State and archive come as two: C stores the one and lends the other.
ghost use Rattle.std.specs.Prelude.{◌≡◌, true, ◌≤◌, OnOk};
ghost use Rattle.basics.specs.Card.{card, card_told};
ghost use Rattle.archive.specs.Layout.{good_files, layout_of, has_room};
ghost use Rattle.gateway.specs.Calls.{answer_of, fresh_told, fresh_number, MadeFresh, Defined, Started};

use crate::calls::place_of;
use archive::layout::{ALARM_SIZE, Definitions, end_of};
use basics::card::Refusal;
use points::groups::judge;
use state::firmware::{alarm_depth, is_firmware_good};
use state::parts::{Files, Line, State};

// Fresh's most memory; the least is the alarm file alone.
const MOST_MEMORY: usize = 1048576;

// What Fresh is refused for: its firmware, then memory too short or too long, then its unit.
#[tactic(auto, unfolding(crate::specs::Calls::fresh_number, state::specs::Firmware::good_firmware))]
fn judge_fresh(unit: u32, firmware: u32, size: usize) -> Result<(), Refusal>
    ensures told { card_told result ≡ card (fresh_number unit firmware size) 0 }
    ensures fits { OnOk result ((unit ≤ 247) × (firmware ≤ 74) × (size ≤ MOST_MEMORY)) }
{
    if !is_firmware_good(firmware) {
        return Err(Refusal::Foreign);
    }
    let least_memory = usize::from(alarm_depth(firmware)) * ALARM_SIZE;
    if !(least_memory..=MOST_MEMORY).contains(&size) {
        return Err(Refusal::Memory);
    }
    if !(1..=247).contains(&unit) {
        return Err(Refusal::Foreign);
    }
    Ok(())
}

// Fresh: every archive byte 0, and the state of a new gateway. Refused, memory is not touched.
#[tactic(auto, unfolding(crate::specs::Calls::fresh_answer, crate::specs::Calls::fresh_memory))]
pub fn fresh(
    day_first: bool,
    unit: u32,
    firmware: u32,
    archive: &mut [u8],
) -> Result<State, Refusal>
    ensures { MadeFresh day_first unit firmware archive.old (fresh_told result) archive.new }
{
    let size = archive.len();
    judge_fresh(unit, firmware, size)?;
    archive.fill(0);
    Ok(State::fresh(day_first, unit as u8, firmware as u16, size as u32))
}

// Define: replaces one file's draft. A layout is not touched before Start.
#[tactic(auto, unfolding(crate::specs::Calls::define_answer, crate::specs::Calls::definition_answer))]
pub fn define(
    state: &mut State,
    archive: &[u8],
    file: u32,
    groups: &[u16; 32],
    limit: u16,
) -> Result<(), Refusal>
    ensures { Defined state.old archive.now file groups.now limit
        (answer_of result state.new) archive.now }
{
    state.check(archive.len())?;
    let place = place_of(file)?;
    if !state.flags.unlocked {
        return Err(Refusal::Locked);
    }
    judge(groups)?;
    // the 32 numbers of a file lie flat, as C stores them
    state.settings.draft.groups[32 * place..32 * place + 32].copy_from_slice(groups);
    state.settings.draft.limits[place] = limit;
    Ok(())
}

// Whether drafted files fit archive memory of this length.
// That the drafts keep their rules is asked, as the state's check has shown it: no type marks good numbers, which C stores as they are.
#[tactic(auto, unfolding(archive::specs::Layout::has_room))]
fn has_draft_room(draft: &Definitions, depth: u16, size: usize) -> bool
    requires { good_files draft.now.groups ≡ true }
    ensures { result ≡ has_room (layout_of draft.now depth) size }
{
    // a match: `is_some_and` would have to say at its closure what `end_of` asks of the files
    match draft.files(depth) {
        Some(files) => end_of(&files) <= size,
        None => false,
    }
}

// Start: running on, unlocked off. Pending, a flag of the state, as C stores it, it lays out the draft and empties every file.
#[tactic(auto, using(crate::proofs::Drafts::drafts_good), unfolding(crate::specs::Calls::start_answer, crate::specs::Calls::start_memory))]
pub fn start(state: &mut State, archive: &mut [u8]) -> Result<(), Refusal>
    ensures { Started state.old archive.old (answer_of result state.new) archive.new }
{
    let size = archive.len();
    state.check(size)?;
    if state.flags.pending {
        if !has_draft_room(&state.settings.draft, state.site.alarm_depth(), size) {
            return Err(Refusal::Room);
        }
        archive.fill(0);
        let layout = state.settings.draft;
        state.files = Files {
            layout,
            pointers: [0; 11],
        };
        state.line = Line { requested: [0; 11] };
        state.flags.pending = false;
    }
    state.flags.running = true;
    state.flags.unlocked = false;
    Ok(())
}
