// Prints records and alarm records of fixed groups and slots over one live table, a line of hexadecimal digits each.
// The program `records` of tests/model prints the same lines apart from this program.
// Runtime and moment go through the functions as two: a struct of them would be generic in the runtime, and one would be built for each of
// the two date orders.
#![tactic(auto)]

ghost use Rattle.std.specs.Prelude.{◌<◌};

use points::groups::{MOST_BYTES, judge};
use points::table::TABLE_BYTES;
use records::event::Event;
use records::moment::Moment;
use records::stamp::Stamp;
use std::io;

// 29 August 2007 11:36:52.
const STAMP: Stamp = Stamp {
    month: 8,
    day: 29,
    year: 7,
    hour: 11,
    minute: 36,
    second: 52,
};

// Groups of every kind, with unused places between them.
const MIXED: [u16; 32] = [
    0, 0, 1805, 9, 0, 0, 3003, 2, 4002, 1, 0, 0, 5103, 1, 7110, 2, 14005, 1, 0, 0, 1901, 28, 0, 0,
    0, 0, 3001, 1, 7228, 1, 0, 0,
];

// The live table: byte i is 37 i + 11 modulo 251, which is prime, so that no two rows start alike.
fn live_table() -> [u8; TABLE_BYTES] {
    let mut table = [0u8; TABLE_BYTES];
    for (i, byte) in table.iter_mut().enumerate() {
        *byte = ((i * 37 + 11) % 251) as u8;
    }
    table
}

static DIGITS: [u8; 16] = *b"0123456789abcdef";

// Writes a record's line. Its digits are looked up: formatted as `{byte:02x}`, the whole program takes two fifths longer.
fn write_line(rt: &impl Print, bytes: &[u8]) -> io::Result<()> {
    for byte in bytes {
        let digits = [
            DIGITS[usize::from(byte / 16)],
            DIGITS[usize::from(byte % 16)],
        ];
        rt.write_all(&digits)?;
    }
    println!(rt)
}

// Writes the record of a definition in a line. A definition that is refused, as none here is, gives the line "refused".
#[tactic(auto, using(points::proofs::Laws::good_definition))]
fn show_record(rt: &impl Print, moment: Moment<'_>, groups: &[u16; 32]) -> io::Result<()> {
    let Ok(size) = judge(groups) else {
        return println!(rt; "refused");
    };
    // `vec![in rt.alloc(); 0; size]?` is a line shorter, but six functions would ask for `AllocGlobal`, and the proof rest on C's heap
    let mut part = [0u8; MOST_BYTES];
    let lent = &mut part[..size];
    moment.write_record(lent, groups);
    write_line(rt, lent)
}

// Writes the record of a single group, at a place counted from 0.
// Point and count are the two numbers of a place, as a definition has them; the place is an index, which its own type would be made for.
fn show_group(
    rt: &impl Print,
    moment: Moment<'_>,
    place: usize,
    point: u16,
    count: u16,
) -> io::Result<()>
    requires { place < 16 }
{
    let mut groups = [0u16; 32];
    groups[2 * place] = point;
    groups[2 * place + 1] = count;
    show_record(rt, moment, &groups)
}

// Every number of Booleans from point 1801 + a on.
fn booleans_from(rt: &impl Print, moment: Moment<'_>, a: u16) -> io::Result<()>
    requires { a < 128 }
{
    for n in 1..=128 - a {
        show_group(rt, moment, 0, 1801 + a, n)?;
    }
    Ok(())
}

// Every group of Booleans that starts in the table's first byte; then, from each later point, the group to the last Boolean.
fn booleans(rt: &impl Print, moment: Moment<'_>) -> io::Result<()> {
    for a in 0..8 {
        booleans_from(rt, moment, a)?;
    }
    for a in 8..128 {
        show_group(rt, moment, 0, 1801 + a, 128 - a)?;
    }
    Ok(())
}

// Groups of the other kinds at the last place: as many points as a record or the row holds, then the last point of each row.
fn last_place(rt: &impl Print, moment: Moment<'_>) -> io::Result<()> {
    let groups = [
        (3001, 64),
        (4001, 30),
        (5101, 61),
        (7101, 61),
        (14001, 15),
        (3064, 1),
        (4032, 1),
        (5164, 1),
        (7228, 1),
        (14016, 1),
    ];
    for (point, count) in groups {
        show_group(rt, moment, 15, point, count)?;
    }
    Ok(())
}

// The mixed groups, and no groups at all, in both date orders.
fn definitions(rt: &impl Print, month_first: Moment<'_>, day_first: Moment<'_>) -> io::Result<()> {
    for groups in [MIXED, [0; 32]] {
        show_record(rt, month_first, &groups)?;
        show_record(rt, day_first, &groups)?;
    }
    Ok(())
}

// Writes one alarm record in a line.
fn alarm_line(rt: &impl Print, moment: Moment<'_>, event: Event) -> io::Result<()> {
    let mut part = [0u8; 22];
    moment.write_alarm(&mut part, event);
    write_line(rt, &part)
}

// Writes one alarm record month first, then day first.
fn show_alarm(
    rt: &impl Print,
    month_first: Moment<'_>,
    day_first: Moment<'_>,
    event: Event,
) -> io::Result<()> {
    alarm_line(rt, month_first, event)?;
    alarm_line(rt, day_first, event)
}

// A first and a last Boolean and one between them, with a first and a last float point and none.
#[tactic(auto, unfolding(points::specs::Table::float_or_none, points::specs::Table::in_row,))]
fn alarms(rt: &impl Print, month_first: Moment<'_>, day_first: Moment<'_>) -> io::Result<()> {
    let first = Event {
        point: 1801,
        kind: 0,
        new: true,
        transducer: 7101,
    };
    let last = Event {
        point: 1928,
        kind: 3,
        new: false,
        transducer: 0,
    };
    let between = Event {
        point: 1850,
        kind: 2,
        new: true,
        transducer: 7228,
    };
    show_alarm(rt, month_first, day_first, first)?;
    show_alarm(rt, month_first, day_first, last)?;
    show_alarm(rt, month_first, day_first, between)
}

// The live table, and over it the Booleans, the other kinds, whole definitions and alarm records.
fn main(rt: HostRuntime) -> io::Result<()> {
    let table = live_table();
    let month_first = Moment {
        table: &table,
        stamp: STAMP,
        day_first: false,
    };
    let day_first = Moment {
        day_first: true,
        ..month_first
    };
    booleans(&rt, month_first)?;
    last_place(&rt, day_first)?;
    definitions(&rt, month_first, day_first)?;
    alarms(&rt, month_first, day_first)
}
