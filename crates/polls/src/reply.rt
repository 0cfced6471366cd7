// Replies, built where they are sent from: bytes go once from where they stand, live texts cleaned on the way, to byte 3 of the reply
// buffer. Buffer and unit go on as two: C lends the one, and the state has the other.
ghost use Rattle.std.specs.Prelude.{◌≡◌, ◌+◌, ◌≤◌, ◌<◌, length, take, drop};
ghost use Rattle.modbus.specs.Frame.{read_reply, read_reply_by, Sent};
ghost use Rattle.records.specs.Capture.{captured_points};
ghost use Rattle.polls.specs.Frames.{register, register_bytes};
ghost use Rattle.polls.specs.View.{view_of};
ghost use Rattle.polls.specs.Lent.{LentPoints};

use crate::view::View;
use basics::copy_bytes;
use modbus::frame::{Function, close_read_reply};
use modbus::word::put_word;
use points::Run;
use records::record::write_points;

// Sends `size` bytes of archive memory from place `at` on as a read reply, and answers its length.
pub fn send_bytes(buffer: &mut [u8], unit: u8, archive: &[u8], at: usize, size: usize) -> usize
    requires { (256 ≤ length buffer.old) × (size ≤ 250) × (at + size ≤ length archive.now) }
    ensures { Sent (read_reply unit (take size (drop at archive.now)))
        buffer.old result buffer.new }
{
    copy_bytes(&mut buffer[3..3 + size], &archive[at..at + size]);
    close_read_reply(buffer, unit, u8::from(Function::Read), size)
}

// Sends a frame back as it came, and answers its length.
pub fn send_echo(buffer: &mut [u8], frame: &[u8]) -> usize
    requires { length frame.now ≤ length buffer.old }
    ensures { Sent frame.now buffer.old result buffer.new }
{
    let size = frame.len();
    copy_bytes(&mut buffer[..size], frame);
    size
}

// Register number i, counted from 0: n, pointer and requested number of file after file.
// The remainder is the register's place in its file's three, as the address table counts them.
#[tactic(auto, unfolding(crate::specs::Frames::register))]
fn register_at(view: &View, i: usize) -> u16
    requires { i < 33 }
    ensures { result ≡ register (view_of view.now) i }
{
    let f = i / 3;
    match i % 3 {
        0 => view.files[f].limit,
        1 => view.pointers[f],
        _ => view.requested[f],
    }
}

// Sends registers as a read reply, and answers its length.
#[tactic(auto, using(crate::proofs::Laws::registers_put), unfolding(crate::specs::Frames::register_bytes))]
pub fn send_registers(buffer: &mut [u8], view: &View, first: usize, count: usize) -> usize
    requires { (first + count ≤ 33) × (256 ≤ length buffer.old) }
    ensures { Sent (read_reply view.now.unit (register_bytes (view_of view.now) first count))
        buffer.old result buffer.new }
{
    for i in 0..count {
        put_word(buffer, 3 + 2 * i, register_at(view, first + i));
    }
    close_read_reply(buffer, view.unit, u8::from(Function::Read), 2 * count)
}

// Sends live points, as a capture has them, as a read reply by the function that asked, and answers its length.
// The function is the request's own byte, as `close_read_reply` takes it.
pub fn send_points(buffer: &mut [u8], unit: u8, function: u8, table: &[u8], run: Run) -> usize
    requires { LentPoints run table.now buffer.old }
    ensures { Sent
        (read_reply_by unit function (captured_points table.now run.row run.point run.count))
        buffer.old result buffer.new }
{
    let size = run.bytes();
    write_points(&mut buffer[3..3 + size], table, run);
    close_read_reply(buffer, unit, function, size)
}
