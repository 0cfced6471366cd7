// What a scan sees, in a file of its own: the definitions that its ghost field imports may not name it.
ghost use Rattle.std.specs.Prelude.{◌≤◌, length};
ghost use Rattle.points.specs.Table.{boolean_bytes};

use records::moment::Moment;

// The Booleans remembered from the accepted scan before it, and its own table, stamp and date order. The Booleans are the first bytes of a
// list that may be longer, as a whole live table is.
#[derive(Clone, Copy, Debug, PartialEq, Eq)]
pub struct Sight<'a> {
    pub before: &'a [u8],
    pub moment: Moment<'a>,
    ghost remembered: { boolean_bytes ≤ length before.now },
}
