// Writes one record two million times, for tests/bench to time beside plain Rust. Standard input says which: 'f' is 61 floats, a
// record of 250 bytes; anything else is the 127 Booleans from 1802 on, which stand one bit off the table's bytes. It prints the sum
// of one byte of each record, so that no write is idle; tests/bench/expected.py works out the sum apart from it.
#![tactic(auto)]

ghost use Rattle.std.specs.Prelude.{◌≡◌, length};
ghost use Rattle.points.specs.Groups.{record_size};

use points::groups::{MOST_BYTES, judge};
use points::table::TABLE_BYTES;
use records::moment::Moment;
use records::stamp::Stamp;
use std::io::{self, Read};

// How many records are written; tests/bench has the number too.
const RECORDS: u32 = 2_000_000;

// 29 August 2007 11:36:52.
// The same stamp as in record_lines: the two programs share no crate but the libraries.
const STAMP: Stamp = Stamp {
    month: 8,
    day: 29,
    year: 7,
    hour: 11,
    minute: 36,
    second: 52,
};

// Writes the records and adds up a byte of each, modulo 2^32; two bytes of the table change before each.
#[tactic(auto, unfolding(points::specs::Groups::record_size))]
fn run(part: &mut [u8], groups: &[u16; 32]) -> u32
    requires { length part.old ≡ record_size groups.now }
{
    let size = part.len();
    let mut table = [0u8; TABLE_BYTES];
    let mut sum: u32 = 0;
    for i in 0..RECORDS {
        let byte = (i % 256) as u8;
        table[1] = byte;
        table[700] = byte;
        let moment = Moment {
            table: &table,
            stamp: STAMP,
            day_first: false,
        };
        moment.write_record(part, groups);
        sum = sum.wrapping_add(u32::from(part[i as usize % size]));
    }
    sum
}

// The records of one group, which stands at the first place. Point and count are the two numbers of a place, as a definition has them.
// It is 0 where there is no record to write: the program prints a sum, and that of no records is 0.
#[tactic(auto, using(points::proofs::Laws::good_definition))]
fn run_group(point: u16, count: u16) -> u32 {
    let mut groups = [0u16; 32];
    groups[0] = point;
    groups[1] = count;
    let Ok(size) = judge(&groups) else {
        return 0;
    };
    // an array, and no Vec of the record's size: that would make this a Result, and the proof rest on C's heap
    let mut part = [0u8; MOST_BYTES];
    run(&mut part[..size], &groups)
}

// Standard input's first byte says which records; where it has none, nothing is written.
fn main(rt: HostRuntime) -> io::Result<()> {
    let mut choice = [0u8; 1];
    let got = rt.stdin().read(&mut choice)?;
    if got != 1 {
        return Ok(());
    }
    let sum = if choice[0] == b'f' {
        run_group(7101, 61)
    } else {
        run_group(1802, 127)
    };
    println!(rt; "{sum}")
}
