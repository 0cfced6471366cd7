// The six rows of the live table.
ghost use Rattle.std.specs.Prelude.{◌≡◌, ◌*◌, ◌<◌, eqb, length};
ghost use Rattle.points.specs.Table.{in_row, row_of, is_bits, points_size, flag_at, boolean_or_none, float_or_none};
ghost use Rattle.points.specs.Groups.{ends_in_row};

// What a row's points are.
#[derive(Clone, Copy, Debug, PartialEq, Eq)]
pub enum Kind {
    Boolean,
    Int16,
    Text8,
    Int32,
    Float,
    Text16,
}

// The points `first` to `last` take `size` bytes each, 0 standing for one bit, from byte `offset` of the table on.
// One constant table of such rows is a form that the project asks for, and a Boolean's size is 0 in it, as the rule has it; `is_bits` is the
// one test of that.
#[derive(Clone, Copy, Debug, PartialEq, Eq)]
pub struct Row {
    pub kind: Kind,
    pub first: u16,
    pub last: u16,
    pub size: u16,
    pub offset: u16,
}

// The live table's bytes.
pub const TABLE_BYTES: usize = 1424;

// The point of Boolean number 0.
pub const FIRST_BOOLEAN: u16 = 1801;

// Two rows have names: triggers and slots name points of theirs.
const BOOLEAN_ROW: Row = Row {
    kind: Kind::Boolean,
    first: FIRST_BOOLEAN,
    last: 1928,
    size: 0,
    offset: 0,
};

const FLOAT_ROW: Row = Row {
    kind: Kind::Float,
    first: 7101,
    last: 7228,
    size: 4,
    offset: 656,
};

const ROWS: [Row; 6] = [
    BOOLEAN_ROW,
    Row {
        kind: Kind::Int16,
        first: 3001,
        last: 3064,
        size: 2,
        offset: 16,
    },
    Row {
        kind: Kind::Text8,
        first: 4001,
        last: 4032,
        size: 8,
        offset: 144,
    },
    Row {
        kind: Kind::Int32,
        first: 5101,
        last: 5164,
        size: 4,
        offset: 400,
    },
    FLOAT_ROW,
    Row {
        kind: Kind::Text16,
        first: 14001,
        last: 14016,
        size: 16,
        offset: 1168,
    },
];

impl Row {
    // Whether a point is one of the row's. A point of 32 bits is not cut to 16.
    #[tactic(auto, unfolding(crate::specs::Table::in_row))]
    fn holds(&self, point: u32) -> bool
        ensures { result ≡ in_row self.now point }
    {
        (u32::from(self.first)..=u32::from(self.last)).contains(&point)
    }

    // The row that holds a point: the one lookup of the table.
    #[tactic(auto, unfolding(crate::specs::Table::row_of, crate::specs::Table::rows))]
    pub fn of(point: u16) -> Option<Row>
        ensures { result ≡ row_of point }
    {
        let point = u32::from(point);
        ROWS.iter().copied().find(|row| row.holds(point))
    }

    // Whether a point of the row is one bit.
    pub fn is_bits(self) -> bool
        ensures { result ≡ is_bits self }
    {
        self.size == 0
    }
}

// Points of one row: `count` of them, from `point` on.
#[derive(Clone, Copy, Debug, PartialEq, Eq)]
pub struct Run {
    pub row: Row,
    pub point: u16,
    pub count: u16,
}

impl Run {
    // Whether the points end in their row, where the first of them is in it. The sums are wider than 16 bits.
    #[tactic(auto, unfolding(crate::specs::Groups::ends_in_row))]
    pub fn ends(self) -> bool
        ensures { result ≡ ends_in_row self.row self.point self.count }
    {
        u32::from(self.point) + u32::from(self.count) <= u32::from(self.row.last) + 1
    }

    // The bytes that the points take in a record.
    #[tactic(auto, unfolding(crate::specs::Table::points_size))]
    pub fn bytes(self) -> usize
        ensures { result ≡ points_size self.row self.count }
    {
        let n = usize::from(self.count);
        if self.row.is_bits() {
            return (n + 7) / 8;
        }
        n * usize::from(self.row.size)
    }
}

// Whether Boolean number i of these bytes is on, lowest bit first.
pub fn is_flag_on(bytes: &[u8], i: usize) -> bool
    requires { i < 8 * length bytes.now }
    ensures { result ≡ eqb (flag_at bytes.now 0 i) 1 }
{
    (bytes[i / 8] >> (i % 8)) % 2 == 1
}

// Whether a point is a Boolean or 0.
// C hands in and stores 0 for none, in place of an Option. Two functions have the names that the contracts have: one that is handed the
// row is no shorter at its calls.
#[tactic(auto, unfolding(crate::specs::Table::boolean_or_none))]
pub fn is_boolean_or_none(point: u32) -> bool
    ensures { result ≡ boolean_or_none point }
{
    (point == 0) | BOOLEAN_ROW.holds(point)
}

// Whether a point is a float or 0.
#[tactic(auto, unfolding(crate::specs::Table::float_or_none))]
pub fn is_float_or_none(point: u32) -> bool
    ensures { result ≡ float_or_none point }
{
    (point == 0) | FLOAT_ROW.holds(point)
}
