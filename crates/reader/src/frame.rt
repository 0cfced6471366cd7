// The reply frame and the record in it.
ghost use Rattle.std.specs.Prelude.{◌≡◌, true, ◌+◌, ◌≤◌, length, IfOk};
ghost use Rattle.basics.specs.Lists.{all_zero};
ghost use Rattle.reader.specs.Frame.{is_reply, record_part, record_checked, reply_checked, frame_checked, Passed};
ghost use Rattle.reader.specs.Answers.{found_record, found_stamp};

use crate::answers::Part;
use basics::card::Refusal;
use modbus::crc::ends_in_crc;
use modbus::frame::Function;
use points::groups::judge;
use records::stamp::Stamp;

// A reply as site software hands it in: the frame, of any bytes, and what its record is read by: the numbers of its definition, of any
// length, and the order of its date.
// Its methods are put into their callers: a reply then has no place of its own on the stack, of which a call has less than 1 KiB.
#[derive(Clone, Copy, Debug, PartialEq, Eq)]
pub struct Reply<'g, 'f> {
    pub groups: &'g [u16],
    pub day_first: bool,
    pub frame: &'f [u8],
}

// Whether a frame is a 03 reply with the right CRC, unit 1-247 and a record of this size.
#[tactic(auto, unfolding(crate::specs::Frame::is_reply))]
fn is_reply(frame: &[u8], size: usize) -> bool
    requires { size ≤ 250 }
    ensures checked { result ≡ is_reply frame.now size }
    ensures long { result ≡ true → length frame.now ≡ size + 5 }
{
    let [unit, function, count, ..] = frame else {
        return false;
    };
    frame.len() == size + 5
        && (1..=247).contains(unit)
        && *function == u8::from(Function::Read)
        && usize::from(*count) == size
        && ends_in_crc(frame)
}

// Whether every byte is 0.
fn all_zero(bytes: &[u8]) -> bool
    ensures { result ≡ all_zero bytes.now }
{
    bytes.iter().all(|byte| *byte == 0)
}

// The byte of a reply at which its record starts.
pub const RECORD_AT: usize = 3;

// The record: the part of the frame that starts at byte 3.
// Frame and size go on as they are: that the record is handed on as this part is a form that the project asks for.
pub fn record_of(frame: &[u8], size: usize) -> &[u8]
    requires { (3 + size ≤ length frame.now) × (size ≤ 250) }
    ensures part { result.now ≡ record_part frame.now size }
    ensures sized { length result.now ≡ size }
{
    let end = RECORD_AT + size;
    &frame[RECORD_AT..end]
}

// Checks a record: Empty, or Garbled for its stamp.
#[tactic(auto, unfolding(crate::specs::Frame::record_checked))]
fn check_record(bytes: &[u8], day_first: bool) -> Result<usize, Refusal>
    requires { 6 ≤ length bytes.now }
    ensures checked { result ≡ record_checked day_first bytes.now }
    ensures sized { IfOk result (λ size. size ≡ length bytes.now) }
{
    if all_zero(bytes) {
        return Err(Refusal::Empty);
    }
    if !Stamp::from_bytes(bytes, day_first).is_in_range() {
        return Err(Refusal::Garbled);
    }
    Ok(bytes.len())
}

// Checks a frame for a record of this size, and the record.
#[tactic(auto, unfolding(crate::specs::Frame::reply_checked))]
fn check_reply(frame: &[u8], day_first: bool, size: usize) -> Result<usize, Refusal>
    requires { (6 ≤ size) × (size ≤ 250) }
    ensures checked { result ≡ reply_checked day_first frame.now size }
    ensures sized { IfOk result (λ n. (n ≡ size) × (length frame.now ≡ size + 5)) }
{
    if !is_reply(frame, size) {
        return Err(Refusal::Garbled);
    }
    check_record(record_of(frame, size), day_first)
}

// Checks groups and frame: the size of the record, or the first row of the card that applies. A function of its own: `Reply::check` is put
// into each of the four reads, and they share this one.
#[tactic(auto, unfolding(crate::specs::Frame::frame_checked))]
fn check_frame(groups: &[u16], day_first: bool, frame: &[u8]) -> Result<usize, Refusal>
    ensures checked { result ≡ frame_checked groups.now day_first frame.now }
    ensures passed { IfOk result (Passed groups.now frame.now) }
{
    let size = judge(groups)?;
    check_reply(frame, day_first, size)
}

impl Reply<'_, '_> {
    // Checks groups and frame: the size of the record, or the first row of the card that applies.
    #[inline(always)]
    pub fn check(&self) -> Result<usize, Refusal>
        ensures checked { result ≡ frame_checked self.now.groups.now self.now.day_first self.now.frame.now }
        ensures passed { IfOk result (Passed self.now.groups.now self.now.frame.now) }
    {
        check_frame(self.groups, self.day_first, self.frame)
    }

    // The record: its place and length in the frame.
    #[tactic(auto, unfolding(crate::specs::Answers::found_record))]
    #[inline(always)]
    pub fn find_record(&self) -> Result<Part, Refusal>
        ensures { result ≡ found_record self.now.groups.now self.now.day_first self.now.frame.now }
    {
        let size = self.check()?;
        Ok(Part {
            place: RECORD_AT as u32,
            length: size as u32,
        })
    }

    // The record's stamp: month, day, year, hour, minute, second, whatever the date order.
    #[tactic(auto, unfolding(crate::specs::Answers::found_stamp))]
    #[inline(always)]
    pub fn read_stamp(&self) -> Result<Stamp, Refusal>
        ensures { result ≡ found_stamp self.now.groups.now self.now.day_first self.now.frame.now }
    {
        let size = self.check()?;
        let record = record_of(self.frame, size);
        Ok(Stamp::from_bytes(record, self.day_first))
    }
}
