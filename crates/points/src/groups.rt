// The groups of a definition. A definition is 32 numbers: a first point and a number of points for each of the 16 places.
ghost use Rattle.std.specs.Prelude.{◌≡◌, true, ◌*◌, ◌<◌, ◌≤◌};
ghost use Rattle.points.specs.Groups.{group_of, group_size, group_at, is_bad, groups_size, judged, ZeroFrom};

use crate::table::{Row, Run};
use basics::card::Refusal;

// The numbers of a definition. They stand flat, two for a place: C hands them in and stores them so, and pairs would be a copy.
pub const NUMBERS: usize = 32;

// The bytes of a stamp, the first of each record.
pub const STAMP_BYTES: usize = 6;

// The most bytes of a record.
// A function that needs this bound asks for it: a type for such a size would be taken off again at each sum.
pub const MOST_BYTES: usize = 250;

// A group: unused, points of one row, or against the rule.
// Three cases by name: a Result of an Option says no more, and its cases would be Ok(None), Ok(Some(run)) and Err(()).
#[derive(Clone, Copy, Debug, PartialEq, Eq)]
pub enum Group {
    Unused,
    Points(Run),
    Bad,
}

impl Group {
    // What the group of `count` points from `point` on is. An unused one needs no lookup.
    #[tactic(auto, unfolding(crate::specs::Groups::group_of, crate::specs::Groups::unused))]
    pub fn of(point: u16, count: u16) -> Group
        ensures { result ≡ group_of point count }
    {
        // with `(point, count) == (0, 0)`, or a match of the two, a Lock over full definitions takes a tenth longer
        if point == 0 && count == 0 {
            return Group::Unused;
        }
        let Some(row) = Row::of(point) else {
            return Group::Bad;
        };
        let run = Run { row, point, count };
        if 0 < count && run.ends() {
            Group::Points(run)
        } else {
            Group::Bad
        }
    }

    // The bytes that the group adds to a record.
    pub fn bytes(self) -> usize
        ensures { result ≡ group_size self }
    {
        match self {
            Group::Unused => 0,
            Group::Bad => 0,
            Group::Points(run) => run.bytes(),
        }
    }

    // Whether the group is against the rule.
    fn is_bad(self) -> bool
        ensures { result ≡ is_bad self }
    {
        matches!(self, Group::Bad)
    }
}

// The group at place g of a definition, counted from 0.
// A place is a plain number below 16: its own type would be made and taken off at each turn of a loop.
pub fn group_at(groups: &[u16; NUMBERS], g: usize) -> Group
    requires { g < 16 }
    ensures { result ≡ group_at groups.now g }
{
    Group::of(groups[2 * g], groups[2 * g + 1])
}

// The bytes of the groups at the first k places.
#[tactic(auto, using(crate::proofs::Laws::walk_laws))]
pub fn groups_size(groups: &[u16; NUMBERS], k: usize) -> usize
    requires { k ≤ 16 }
    ensures { result ≡ groups_size groups.now k }
{
    let mut total = 0;
    for g in 0..k {
        total += group_at(groups, g).bytes();
    }
    total
}

// Whether every number is 0. The loop looks at all of them, so that it runs many at a time: `all` ends at the first that is not 0, and a
// Lock takes a quarter longer with it.
fn are_zero(numbers: &[u16]) -> bool
    ensures { result ≡ true → ZeroFrom numbers.now 0 }
{
    let mut zero = true;
    for number in numbers {
        zero &= *number == 0;
    }
    zero
}

// How many places of a definition are to be walked: those behind are unused. Most definitions have few groups.
fn places_used(groups: &[u16; NUMBERS]) -> usize
    ensures { (result ≤ 16) × ZeroFrom groups.now (2 * result) }
{
    if !are_zero(&groups[16..]) {
        return 16;
    }
    if !are_zero(&groups[4..]) {
        return 8;
    }
    2
}

// Judges the groups of a definition in one walk along its places, and the size of its record.
#[tactic(auto, using(crate::proofs::Laws::walk_laws), unfolding(crate::specs::Groups::first_bad))]
fn judge_groups(groups: &[u16; NUMBERS]) -> Result<usize, Refusal>
    ensures { result ≡ judged groups.now }
{
    let mut size = STAMP_BYTES;
    for g in 0..places_used(groups) {
        let group = group_at(groups, g);
        if group.is_bad() {
            return Err(Refusal::Group((g + 1) as u8));
        }
        size += group.bytes();
    }
    if MOST_BYTES < size {
        return Err(Refusal::Long);
    }
    Ok(size)
}

// Judges a definition of any length: the size of its record, or the first row of the card that applies, Group or Long.
#[tactic(auto, unfolding(crate::specs::Groups::judged))]
pub fn judge(groups: &[u16]) -> Result<usize, Refusal>
    ensures { result ≡ judged groups.now }
{
    let groups: &[u16; NUMBERS] = groups.try_into().map_err(|_| Refusal::Group(0))?;
    judge_groups(groups)
}
