// What a poll sees.
use archive::layout::{FILES, File};
use points::table::TABLE_BYTES;

// The parts of a gateway's state that a poll looks at, and what it is lent to read: our unit, where each file lies, its pointer and its
// requested number, archive memory and the live table.
// Pointers and requested numbers are the state's own arrays, lent: C stores them so.
#[derive(Clone, Copy, Debug, PartialEq, Eq)]
pub struct View<'a> {
    pub unit: u8,
    pub files: &'a [File; FILES],
    pub pointers: &'a [u16; FILES],
    pub requested: &'a [u16; FILES],
    pub archive: &'a [u8],
    pub table: &'a [u8; TABLE_BYTES],
}
