// The groups of a record: Booleans repacked, texts cleaned, numbers as they stand in the live table.
// A lent part, of archive memory or of the reply buffer, is handed on from writer to writer, piece by piece: a form that the project asks for.
ghost use Rattle.std.specs.Prelude.{◌≡◌, ◌+◌, ◌<◌, ◌≤◌, length};
ghost use Rattle.basics.specs.Lists.{tabulate};
ghost use Rattle.points.specs.Table.{table_bytes};
ghost use Rattle.points.specs.Groups.{groups_size};
ghost use Rattle.records.specs.Capture.{text_byte, cleaned, is_text, value_byte, captured_points, captured_group};
ghost use Rattle.records.specs.Record.{captured_groups};
ghost use Rattle.records.specs.Lent.{LentRun, LentGroup, LentPlace, Placed};

use crate::flags::write_flags;
use basics::copy_bytes;
use points::groups::group_at;
use points::table::TABLE_BYTES;
use points::{Group, Kind, Run};

// How a byte of text is captured, or polled live: 00 and 20 to 7E hex as they stand, any other as a question mark.
#[tactic(auto, unfolding(crate::specs::Capture::text_byte))]
fn text_byte(byte: u8) -> u8
    ensures { result ≡ text_byte byte }
{
    match byte {
        0 | 0x20..=0x7E => byte,
        _ => b'?',
    }
}

// Copies texts into a part of their length, each byte cleaned. In one walk: copied and then cleaned in place takes 1.4 times as long.
// One index goes for both: with `part.iter_mut().zip(texts)` no proof knows what is written through the pair.
#[tactic(auto, using(basics::proofs::Lists::filled_none))]
fn copy_texts(part: &mut [u8], texts: &[u8])
    requires { length part.old ≡ length texts.now }
    ensures { part.new ≡ cleaned texts.now }
{
    for (i, byte) in part.iter_mut().enumerate() {
        *byte = text_byte(texts[i]);
    }
}

// Whether a kind is one of the two text kinds.
fn is_text(kind: Kind) -> bool
    ensures { result ≡ is_text kind }
{
    matches!(kind, Kind::Text8 | Kind::Text16)
}

// Writes the bytes of the table from place `from` on, as a kind's are captured or polled live, into a part that they fill.
// Two ways, by the rule's own test: texts are cleaned, all else goes as it stands.
#[tactic(auto, using(crate::proofs::Laws::points_laws))]
fn write_values(part: &mut [u8], table: &[u8], kind: Kind, from: usize)
    requires { from + length part.old ≤ length table.now }
    ensures { part.new ≡ tabulate (length part.old) (value_byte kind table.now from) }
{
    let values = &table[from..from + part.len()];
    if is_text(kind) {
        copy_texts(part, values);
    } else {
        copy_bytes(part, values);
    }
}

// Writes points of a row into a part of their size.
#[tactic(auto, using(crate::proofs::Laws::points_laws))]
pub fn write_points(part: &mut [u8], table: &[u8], run: Run)
    requires lent { LentRun part.old run }
    requires whole { length table.now ≡ table_bytes }
    ensures { part.new ≡ captured_points table.now run.row run.point run.count }
{
    let row = run.row;
    let offset = usize::from(row.offset);
    let first = usize::from(run.point - row.first);
    if row.is_bits() {
        write_flags(part, table, offset, first, usize::from(run.count));
    } else {
        let size = usize::from(row.size);
        write_values(part, table, row.kind, offset + first * size);
    }
}

// Writes one group into a part of its size; an unused group's is empty.
pub fn write_group(part: &mut [u8], table: &[u8; TABLE_BYTES], group: Group)
    requires { LentGroup part.old group }
    ensures { part.new ≡ captured_group table.now group }
{
    match group {
        Group::Unused | Group::Bad => {}
        Group::Points(run) => write_points(part, table, run),
    }
}

// Writes the group at place g from byte `at` on, and answers the byte behind it.
// The place goes on and not the rest of the part, as `split_at_mut` gives it: of a `&mut` that a loop hands on no proof closed, since
// nothing ties what the last turn leaves to the whole part.
#[tactic(auto, using(crate::proofs::Laws::lent_group))]
fn write_place(
    part: &mut [u8],
    at: usize,
    table: &[u8; TABLE_BYTES],
    groups: &[u16; 32],
    g: usize,
) -> usize
    requires { LentPlace part.old at groups.now g }
    ensures { Placed part.old at table.now groups.now g result part.new }
{
    let group = group_at(groups, g);
    let end = at + group.bytes();
    write_group(&mut part[at..end], table, group);
    end
}

// Writes the 16 groups of a definition, in order, into a part of their size.
#[tactic(auto, using(crate::proofs::Laws::walk_laws), unfolding(points::specs::Groups::groups_size, crate::specs::Record::captured_groups))]
pub fn write_groups(part: &mut [u8], table: &[u8; TABLE_BYTES], groups: &[u16; 32])
    requires { length part.old ≡ groups_size groups.now 16 }
    ensures { part.new ≡ captured_groups table.now groups.now 16 }
{
    let mut at = 0;
    for g in 0..16 {
        at = write_place(part, at, table, groups, g);
    }
}
