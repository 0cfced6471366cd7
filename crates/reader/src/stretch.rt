// The stretch of a place. Places count from 1, unused ones too.
ghost use Rattle.std.specs.Prelude.{◌≡◌, ◌≤◌, IfOk};
ghost use Rattle.reader.specs.Frame.{stretch_from, stretch_part};
ghost use Rattle.reader.specs.Stretch.{FoundStretch, LentRecord, IsLent};
ghost use Rattle.reader.specs.Answers.{found_stretch};

use crate::answers::Part;
use crate::frame::{RECORD_AT, Reply, record_of};
use basics::card::Refusal;
use points::groups::{NUMBERS, STAMP_BYTES, group_at, groups_size};
use points::{Group, Run};

// A place that has points: these, and their bytes with the byte of the frame at which they start.
#[derive(Clone, Copy, Debug, PartialEq, Eq)]
pub struct Stretch<'a> {
    pub run: Run,
    pub from: usize,
    pub bytes: &'a [u8],
}

// Where the stretch of place g starts in a record.
#[tactic(auto, using(points::proofs::Laws::walk_laws))]
pub fn stretch_from(groups: &[u16; NUMBERS], g: u32) -> usize
    requires { (1 ≤ g) × (g ≤ 16) }
    ensures { result ≡ stretch_from groups.now g }
{
    STAMP_BYTES + groups_size(groups, (g - 1) as usize)
}

// The stretch of place g, which starts at byte `from` of the record's bytes: a part of them. It is for who has a record's bytes without a
// frame; a reply's own is `Reply::stretch_of`, which makes the checks and has the place's points at hand.
pub fn stretch_of<'b>(groups: &[u16; NUMBERS], bytes: &'b [u8], g: u32, from: usize) -> &'b [u8]
    requires { LentRecord groups.now bytes.now g from }
    ensures { result.now ≡ stretch_part groups.now bytes.now g }
{
    let end = from + group_at(groups, (g - 1) as usize).bytes();
    &bytes[from..end]
}

impl<'f> Reply<'_, 'f> {
    // Checks groups, frame and place: the stretch of place g, or the first row of the card that applies.
    #[tactic(auto, using(crate::proofs::Laws::place_inside, points::proofs::Laws::group_again), unfolding(crate::specs::Frame::stretch_checked))]
    #[inline(always)]
    pub fn stretch_of(&self, g: u32) -> Result<Stretch<'f>, Refusal>
        ensures found { FoundStretch self.now.groups.now self.now.day_first self.now.frame.now g result }
        ensures lent { IfOk result IsLent }
    {
        let size = self.check()?;
        if !(1..=16).contains(&g) {
            return Err(Refusal::Beyond);
        }
        let groups: &[u16; NUMBERS] = self.groups.try_into().unwrap();
        let place = (g - 1) as usize;
        let Group::Points(run) = group_at(groups, place) else {
            return Err(Refusal::Beyond);
        };
        let length = run.bytes();
        let start = stretch_from(groups, g);
        let record = record_of(self.frame, size);
        Ok(Stretch {
            run,
            from: RECORD_AT + start,
            bytes: &record[start..start + length],
        })
    }

    // The stretch of place g, counted from 1: its place and length in the frame.
    #[tactic(auto, unfolding(crate::specs::Answers::found_stretch))]
    #[inline(always)]
    pub fn find_stretch(&self, g: u32) -> Result<Part, Refusal>
        ensures { result ≡ found_stretch self.now.groups.now self.now.day_first self.now.frame.now g }
    {
        let stretch = self.stretch_of(g)?;
        Ok(Part {
            place: stretch.from as u32,
            length: stretch.bytes.len() as u32,
        })
    }
}
