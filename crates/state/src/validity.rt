// What makes a state Foreign: a part that is against its rule.
ghost use Rattle.std.specs.Prelude.{◌≡◌, ◌&&◌, true, eqb, get_or};
ghost use Rattle.std.specs.List.{list_all};
ghost use Rattle.points.specs.Table.{boolean_or_none};
ghost use Rattle.archive.specs.Alarms.{good_slot, good_slots};
ghost use Rattle.archive.specs.Layout.{Layout, every, is_good, good_files, has_room};
ghost use Rattle.archive.specs.Lent.{AreSmall, LaidOut};
ghost use Rattle.state.specs.State.{depth_of};
ghost use Rattle.state.specs.Validity.{flags_valid, site_valid, settings_valid, within_limits};

use crate::firmware::{alarm_depth, is_firmware_good};
use crate::parts::{Files, Flags, Settings, Site};
use archive::alarms::Slot;
use archive::layout::{ALARM_FILE, Definitions, FILES, File, end_of};
use points::groups::judge;
use points::table::{is_boolean_or_none, is_float_or_none};

impl Site {
    // Whether unit and firmware are valid.
    #[tactic(auto, unfolding(crate::specs::Validity::site_valid))]
    pub fn is_valid(&self) -> bool
        ensures { result ≡ site_valid self.now }
    {
        (1..=247).contains(&self.unit) & is_firmware_good(u32::from(self.firmware))
    }

    // The most records of the site's alarm file.
    pub fn alarm_depth(&self) -> u16
        ensures { result ≡ depth_of self.now }
    {
        alarm_depth(u32::from(self.firmware))
    }
}

impl Flags {
    // Running and unlocked are not both on.
    pub fn is_valid(&self) -> bool
        ensures { result ≡ flags_valid self.now }
    {
        !(self.running & self.unlocked)
    }
}

// Whether each of the ten triggers is a Boolean or 0.
fn are_triggers_good(triggers: &[u16; 10]) -> bool
    ensures { result ≡ list_all boolean_or_none triggers.now }
{
    triggers
        .iter()
        .all(|trigger| is_boolean_or_none(u32::from(*trigger)))
}

// Whether an alarm slot's three fields keep their rules, even when it is off.
// Three numbers as C hands them in or a slot has them, and the type among them: an enum could not hold one that is against the rule, and a
// Slot of 16 bits each is made once they are judged. The tests are joined by `&`, without a branch, since the
// loop over the slots asks all of them nearly always.
#[tactic(auto, unfolding(archive::specs::Alarms::good_slot))]
pub fn is_slot_good(point: u32, kind: u32, transducer: u32) -> bool
    ensures { result ≡ good_slot point kind transducer }
{
    is_boolean_or_none(point) & ((kind <= 3) & is_float_or_none(transducer))
}

// Whether each of the 32 slots keeps its rules. Nearly always all do, so the loop has no early end: with `all` a Lock takes an eighth longer.
#[tactic(auto, using(crate::proofs::Every::every_steps), unfolding(archive::specs::Alarms::good_slots))]
fn are_slots_good(slots: &[Slot; 32]) -> bool
    ensures { result ≡ good_slots slots.now }
{
    let mut good = true;
    for slot in slots {
        good &= is_slot_good(
            u32::from(slot.point),
            u32::from(slot.kind),
            u32::from(slot.transducer),
        );
    }
    good
}

// Whether 32 numbers keep the rules of a definition. It is seldom asked, and so is not put into its caller.
#[tactic(auto, unfolding(archive::specs::Layout::is_good))]
#[inline(never)]
fn is_definition_good(groups: &[u16; 32]) -> bool
    ensures { result ≡ is_good groups.now }
{
    judge(groups).is_ok()
}

// Whether two definitions are the same. The loop looks at all numbers, so that it runs many at a time: `==` ends at the first that
// differs, and each call takes a tenth longer with it.
fn are_same(a: &[u16; 32], b: &[u16; 32]) -> bool
    ensures { result ≡ every 32 (λ k. eqb (get_or a.now k 0) (get_or b.now k 0)) }
{
    let mut same = true;
    for (x, y) in a.iter().zip(b) {
        same &= *x == *y;
    }
    same
}

// Whether a drafted definition keeps its rules, where the laid-out one does: after a Start both are the same.
fn is_draft_good(draft: &[u16; 32], laid: &[u16; 32]) -> bool
    requires { is_good laid.now ≡ true }
    ensures { result ≡ is_good draft.now }
{
    are_same(draft, laid) || is_definition_good(draft)
}

// Whether all drafted definitions keep their rules, where the laid-out ones do.
// That these do is asked, since the files' layout has shown it: no type marks good numbers, which C stores as they are.
#[tactic(auto, using(crate::proofs::Every::every_steps, crate::proofs::Every::good_at), unfolding(archive::specs::Layout::good_files))]
fn are_drafts_good(drafts: &Definitions, laid: &Definitions) -> bool
    requires { good_files laid.now.groups ≡ true }
    ensures { result ≡ good_files drafts.now.groups }
{
    for f in 0..ALARM_FILE {
        if !is_draft_good(drafts.groups_of(f), laid.groups_of(f)) {
            return false;
        }
    }
    true
}

impl Settings {
    // Whether drafts, triggers and slots, which calls set one by one, keep their rules, where the laid-out definitions do.
    #[tactic(auto, using(crate::proofs::Every::triggers_good), unfolding(crate::specs::Validity::settings_valid))]
    pub fn is_valid(&self, laid: &Definitions) -> bool
        requires { good_files laid.now.groups ≡ true }
        ensures { result ≡ settings_valid self.now }
    {
        are_drafts_good(&self.draft, laid)
            && are_triggers_good(&self.triggers)
            && are_slots_good(&self.slots)
    }
}

// Whether no pointer, or no requested number, is over its file's n.
fn are_within(numbers: &[u16; FILES], files: &[File; FILES]) -> bool
    ensures { (l : Layout) → LaidOut l files.now → result ≡ within_limits numbers.now l }
{
    numbers
        .iter()
        .zip(files)
        .all(|(number, file)| *number <= file.limit)
}

impl Files {
    // Whether files laid out so fit the archive, and no pointer and no requested number is over its n.
    #[tactic(auto, unfolding(archive::specs::Layout::has_room))]
    pub fn fit(&self, files: &[File; FILES], requested: &[u16; FILES], size: usize) -> bool
        requires { AreSmall files.now }
        ensures { (l : Layout) → LaidOut l files.now
            → result ≡ has_room l size && (within_limits self.now.pointers l && within_limits requested.now l) }
    {
        end_of(files) <= size && are_within(&self.pointers, files) && are_within(requested, files)
    }
}
