// Runs frames with a published CRC, and damaged copies of each, through the frame check; one line a frame.
// tests/frames/expected.py computes the same lines apart from this program.
#![tactic(auto)]

ghost use Rattle.std.specs.Prelude.{◌≡◌, ◌+◌, ◌-◌, ◌*◌, ◌^◌, ◌<◌, ◌≤◌, length, take};

use modbus::crc::{crc_of, ends_in_crc};
use std::io;

// How many damaged copies of a frame were tried, and how many of them the frame check refused.
#[derive(Clone, Copy, Debug, PartialEq, Eq)]
struct Tally {
    tried: usize,
    refused: usize,
}

impl Tally {
    // One copy more.
    fn count(&mut self, refused: bool)
        requires { (self.old.tried < 2 ^ 64 - 1) × (self.old.refused ≤ self.old.tried) }
        ensures { (self.new.tried ≡ self.old.tried + 1) × (self.new.refused ≤ self.new.tried) }
    {
        self.tried += 1;
        self.refused += usize::from(refused);
    }
}

// Whether a frame is refused with one bit flipped; bits count from the lowest of the first byte.
fn refused_flipped<const N: usize>(mut frame: [u8; N], bit: usize) -> bool
    requires { bit < 8 * N }
{
    frame[bit / 8] ^= 1 << (bit % 8);
    !ends_in_crc(&frame)
}

// Whether a frame is refused with its last byte cut off.
fn refused_cut(frame: &[u8]) -> bool {
    !ends_in_crc(without_last(frame, 1))
}

// Whether a frame is refused with its last two bytes swapped.
fn refused_swapped<const N: usize>(mut frame: [u8; N]) -> bool
    requires { 2 ≤ N }
{
    frame.swap(N - 2, N - 1);
    !ends_in_crc(&frame)
}

// A frame without its last k bytes; nothing where it has fewer.
fn without_last(frame: &[u8], k: usize) -> &[u8]
    ensures { result.now ≡ take (length frame.now - k) frame.now }
{
    &frame[..frame.len().saturating_sub(k)]
}

// Every bit of a frame flipped in turn.
// A Modbus frame has at most 256 bytes; for that many no count of copies overflows.
fn flipped<const N: usize>(frame: &[u8; N]) -> Tally
    requires { N ≤ 256 }
    ensures { (result.tried ≡ 8 * N) × (result.refused ≤ result.tried) }
{
    let mut tally = Tally {
        tried: 0,
        refused: 0,
    };
    for bit in 0..8 * N {
        tally.count(refused_flipped(*frame, bit));
    }
    tally
}

// Every damaged copy of a frame: each bit flipped, the last byte cut off, the last two swapped.
fn damaged<const N: usize>(frame: &[u8; N]) -> Tally
    requires { N ≤ 256 }
{
    let mut tally = flipped(frame);
    if 1 <= N {
        tally.count(refused_cut(frame));
    }
    if 2 <= N {
        tally.count(refused_swapped(*frame));
    }
    tally
}

// Writes a frame's bytes, a space after each.
fn write_frame(rt: &impl Print, frame: &[u8]) -> io::Result<()> {
    if frame.is_empty() {
        print!(rt; "(no bytes) ")?;
    }
    for byte in frame {
        print!(rt; "{byte:02X} ")?;
    }
    Ok(())
}

// Writes a frame's line, with the CRC of what is before its last two bytes; before a shorter frame's there is nothing.
fn show<const N: usize>(rt: &impl Print, frame: &[u8; N], source: &str) -> io::Result<()>
    requires { N ≤ 256 }
{
    write_frame(rt, frame)?;
    let sum = crc_of(without_last(frame, 2));
    let verdict = if ends_in_crc(frame) {
        "checks"
    } else {
        "does not check"
    };
    let Tally { tried, refused } = damaged(frame);
    println!(rt; "crc {sum:04X} {verdict}, {refused} of {tried} damaged copies refused ({source})")
}

// The pages of the Simply Modbus manual, simplymodbus.ca, as the lines of their frames name them.
const FC01: &str = "Simply Modbus, FC01";

const FC02: &str = "Simply Modbus, FC02";

const FC03: &str = "Simply Modbus, FC03";

const FC04: &str = "Simply Modbus, FC04";

const FC05: &str = "Simply Modbus, FC05";

const FC06: &str = "Simply Modbus, FC06";

const FC15: &str = "Simply Modbus, FC15";

const FC16: &str = "Simply Modbus, FC16";

const EXCEPTIONS: &str = "Simply Modbus, Exceptions";

// Frames of the Simply Modbus manual, simplymodbus.ca: the pages of functions 1 to 16, and of exceptions.
fn simply_modbus(rt: &impl Print) -> io::Result<()> {
    show(rt, b"\x11\x01\x00\x13\x00\x25\x0E\x84", FC01)?;
    show(rt, b"\x11\x01\x05\xCD\x6B\xB2\x0E\x1B\x45\xE6", FC01)?;
    show(rt, b"\x11\x02\x00\xC4\x00\x16\xBA\xA9", FC02)?;
    show(rt, b"\x11\x03\x00\x6B\x00\x03\x76\x87", FC03)?;
    show(rt, b"\x11\x03\x06\xAE\x41\x56\x52\x43\x40\x49\xAD", FC03)?;
    show(rt, b"\x11\x04\x00\x08\x00\x01\xB2\x98", FC04)?;
    show(rt, b"\x11\x05\x00\xAC\xFF\x00\x4E\x8B", FC05)?;
    show(rt, b"\x11\x06\x00\x01\x00\x03\x9A\x9B", FC06)?;
    show(rt, b"\x11\x0F\x00\x13\x00\x0A\x02\xCD\x01\xBF\x0B", FC15)?;
    show(
        rt,
        b"\x11\x10\x00\x01\x00\x02\x04\x00\x0A\x01\x02\xC6\xF0",
        FC16,
    )?;
    show(rt, b"\x0A\x81\x02\xB0\x53", EXCEPTIONS)
}

// What the lines of the shortest frames name as their source: the bit rule. A CRC starts at FFFF; each byte is exclusive-ored into
// it, then it goes eight times one bit to the right, and each 1 that is lost there exclusive-ors in A001.
const BIT_RULE: &str = "document 01's bit rule";

// Frames of 0 to 3 bytes. FF FF checks, since the CRC of nothing is FFFF; swapped it is itself, and checks too.
fn short_frames(rt: &impl Print) -> io::Result<()> {
    show(rt, b"", BIT_RULE)?;
    show(rt, b"\xFF", BIT_RULE)?;
    show(rt, b"\xFF\xFF", BIT_RULE)?;
    show(rt, b"\x00\x00\x00", BIT_RULE)
}

// The two documents that give a CRC by itself, then the manual, then the shortest frames.
fn main(rt: HostRuntime) -> io::Result<()> {
    show(
        &rt,
        b"\x02\x07\x41\x12",
        "MODBUS over Serial Line V1.02, 6.2.2",
    )?;
    show(
        &rt,
        b"\x31\x32\x33\x34\x35\x36\x37\x38\x39\x37\x4B",
        "CRC catalogue, CRC-16/MODBUS, check 4B37",
    )?;
    simply_modbus(&rt)?;
    short_frames(&rt)
}
