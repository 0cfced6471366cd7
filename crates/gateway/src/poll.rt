// The poll: a frame answered in the reply buffer that it will be sent from.
// State and archive come as two: C stores the one and lends the other.
ghost use Rattle.std.specs.Prelude.{◌≡◌};
ghost use Rattle.gateway.specs.Poll.{poll_answer_of, Polled};

use crate::live::whole_table;
use basics::card::{DONE, Refusal};
use polls::poll::Answered;
use polls::view::View;
use state::parts::State;

// The card's number, the reply's length, 0 for none, and the state.
// C gets it by value: its header fixes the fields.
#[repr(C)]
#[derive(Clone, Copy, Debug, PartialEq, Eq)]
pub struct PollAnswer {
    pub number: u32,
    pub length: u32,
    pub state: State,
}

impl PollAnswer {
    // What C is told of a poll's outcome, the reply's length, with the state that the poll leaves.
    // The state is lent, as to `Answer::of`.
    pub fn of(outcome: Result<u32, Refusal>, state: &State) -> PollAnswer
        ensures { result ≡ poll_answer_of outcome state.now }
    {
        let (number, length) = match outcome {
            Ok(length) => (DONE, length),
            Err(refusal) => (u32::from(refusal), 0),
        };
        PollAnswer {
            number,
            length,
            state: *state,
        }
    }
}

// The least bytes of a reply buffer: no reply is longer.
const LEAST_BUFFER: usize = 256;

// Poll: answers a frame of any length and content at the start of the reply buffer, from the archive or the live table, and tells the
// reply's length, 0 for none. Bytes past the reply are left as they were.
#[tactic(auto, using(crate::proofs::Polls::poll_lends), unfolding(crate::specs::Poll::poll_answer, crate::specs::Poll::poll_buffer, crate::specs::Poll::poll_number))]
pub fn poll(
    state: &mut State,
    archive: &[u8],
    table: &[u8],
    frame: &[u8],
    reply: &mut [u8],
) -> Result<u32, Refusal>
    ensures { Polled state.old archive.now table.now frame.now reply.old
        (poll_answer_of result state.new) archive.now table.now reply.new }
{
    let files = state.check(archive.len())?;
    let table = whole_table(table)?;
    if reply.len() < LEAST_BUFFER {
        return Err(Refusal::Reply);
    }
    let view = View {
        unit: state.site.unit,
        files: &files,
        pointers: &state.files.pointers,
        requested: &state.line.requested,
        archive,
        table,
    };
    // taken apart first: stored from a field, as `answered.requested`, the array has no generated proof
    let Answered { length, requested } = view.answer(reply, frame);
    state.line.requested = requested;
    Ok(length as u32)
}
