// A frame answered at the start of the lent reply buffer that it is sent from; so what is answered is a length.
ghost use Rattle.std.specs.Prelude.{◌≡◌, take, drop};
ghost use Rattle.archive.specs.Ring.{record_place};
ghost use Rattle.modbus.specs.Frame.{read_reply, Sent};
ghost use Rattle.polls.specs.View.{view_of, limit_in};
ghost use Rattle.polls.specs.Frames.{is_heard, reply_of, requested_by, Answers};
ghost use Rattle.polls.specs.Lent.{LentRecord, LentPoll, LentAsked, SetsFile};

use crate::reply::{send_bytes, send_echo, send_points, send_registers};
use crate::request::{Asked, ask};
use crate::view::View;
use archive::layout::{FILES, File};
use modbus::crc::ends_in_crc;
use modbus::frame::{Exception, write_exception};

// What a poll leaves: the reply's length, 0 for none, and the requested numbers.
// C is told the length as it is, and no reply has 0 bytes: an Option would be taken apart again.
#[derive(Clone, Copy, Debug, PartialEq, Eq)]
pub struct Answered {
    pub length: usize,
    pub requested: [u16; FILES],
}

// Whether a frame has a request's length and the right CRC.
#[tactic(auto, unfolding(crate::specs::Frames::is_heard))]
fn is_heard(frame: &[u8]) -> bool
    ensures { result ≡ is_heard frame.now }
{
    (4..=256).contains(&frame.len()) && ends_in_crc(frame)
}

// Sends the first `size` bytes of a file's record k, and answers the reply's length.
fn send_record(
    buffer: &mut [u8],
    unit: u8,
    archive: &[u8],
    file: File,
    k: u16,
    size: usize,
) -> usize
    requires { LentRecord file k size archive.now buffer.old }
    ensures { Sent
        (read_reply unit (take size (drop (record_place file.from file.size k) archive.now)))
        buffer.old result buffer.new }
{
    send_bytes(buffer, unit, archive, file.record_at(k), size)
}

// The requested numbers that are left by what was asked.
fn requested_by(asked: Result<Asked, Exception>, requested: &[u16; FILES]) -> [u16; FILES]
    requires { SetsFile asked }
    ensures { result ≡ requested_by asked requested.now }
{
    let mut numbers = *requested;
    if let Ok(Asked::SetRequested { file, number }) = asked {
        numbers[file] = number;
    }
    numbers
}

// Sends the reply to a frame for our unit by what it asked, and answers the reply's length.
#[tactic(auto, using(crate::proofs::Laws::part_sent), unfolding(crate::specs::Frames::reply_of))]
fn reply_to(asked: Result<Asked, Exception>, buffer: &mut [u8], frame: &[u8], view: &View) -> usize
    requires lent_poll { LentPoll view.now.files.now view.now.archive.now buffer.old }
    requires lent_asked { LentAsked (limit_in view.now.files.now) frame.now asked }
    ensures { Sent (reply_of (view_of view.now) frame.now asked) buffer.old result buffer.new }
{
    match asked {
        Err(exception) => write_exception(buffer, view.unit, frame[1], u8::from(exception)),
        Ok(Asked::Record { file, number, part }) => {
            let archive = view.archive;
            let file = view.files[file];
            let size = part.sent_size(file.size);
            send_record(buffer, view.unit, archive, file, number, size)
        }
        Ok(Asked::Registers { first, count }) => send_registers(buffer, view, first, count),
        Ok(Asked::LivePoints(run)) => {
            let table = view.table;
            send_points(buffer, view.unit, frame[1], table, run)
        }
        Ok(Asked::SetRequested { .. }) => send_echo(buffer, frame),
    }
}

impl View<'_> {
    // Answers a frame of any length and content: all checks come before the first byte of the reply. It is not put into its caller: what it
    // keeps would lie on the stack while the state is checked, where a poll is deepest.
    #[tactic(auto, using(crate::proofs::Laws::asked_laws), unfolding(crate::specs::Frames::reply_to, crate::specs::Frames::requested_after))]
    #[inline(never)]
    pub fn answer(&self, buffer: &mut [u8], frame: &[u8]) -> Answered
        requires { LentPoll self.now.files.now self.now.archive.now buffer.old }
        ensures { Answers (view_of self.now) frame.now buffer.old
            result.length buffer.new result.requested }
    {
        let requested = self.requested;
        let silent = Answered {
            length: 0,
            requested: *requested,
        };
        if !is_heard(frame) {
            return silent;
        }
        let ours = frame[0] == self.unit;
        if !(ours | (frame[0] == 0)) {
            return silent;
        }
        let files = self.files;
        let asked = ask(frame, files, requested);
        let numbers = requested_by(asked, requested);
        if !ours {
            return Answered {
                requested: numbers,
                ..silent
            };
        }
        let length = reply_to(asked, buffer, frame, self);
        Answered {
            length,
            requested: numbers,
        }
    }
}
