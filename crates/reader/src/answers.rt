// What the reading end answers, and how C is told of it.
use basics::card::{self, Refusal};
use records::stamp::Stamp;

// A part of the frame.
// A place and a length, since C gets no reference, and a slice does not tell at which byte of the frame it starts.
#[derive(Clone, Copy, Debug, PartialEq, Eq)]
pub struct Part {
    pub place: u32,
    pub length: u32,
}

// The value of a point, a case a kind, a text by its part of the frame; or a refusal.
// One enum, a case a kind and one for the refusal, is a form that the project asks for; so no Result stands around it. A float is the
// 32 bits that the record has: they may be a NaN's, which `f32::from_bits` does not take in Rattle.
#[derive(Clone, Copy, Debug, PartialEq, Eq)]
pub enum Value {
    Flag(bool),
    Int16(i16),
    Int32(i32),
    Float(u32),
    Text(Part),
    Refused(Refusal),
}

// The three answers are C's: its header fixes the fields, and an exported function can answer no enum. What does not count is 0, written
// out: `..Default::default()` is shorter, but hides what C finds in an answer.

// A part of the frame, or a refusal with a part of no length.
#[repr(C)]
#[derive(Clone, Copy, Debug, PartialEq, Eq)]
pub struct PartAnswer {
    pub number: u32,
    pub carried: u32,
    pub place: u32,
    pub length: u32,
}

// A record's stamp, or a refusal with a stamp of zeros.
#[repr(C)]
#[derive(Clone, Copy, Debug, PartialEq, Eq)]
pub struct StampAnswer {
    pub number: u32,
    pub carried: u32,
    pub stamp: Stamp,
}

// A point's value, or a refusal: kind 1 flag, 2 16-bit, 3 32-bit, 4 float, 5 text, 0 refused.
#[repr(C)]
#[derive(Clone, Copy, Debug, PartialEq, Eq)]
pub struct PointAnswer {
    pub number: u32,
    pub carried: u32,
    pub kind: u32,
    pub bits: u32,
    pub place: u32,
    pub length: u32,
}

impl From<Result<Part, Refusal>> for PartAnswer {
    ghost use Rattle.std.specs.Prelude.{◌≡◌};
    ghost use Rattle.reader.specs.Answers.{told_of_part};

    ghost from_gives = { λ found answer. answer ≡ told_of_part found };

    fn from(found: Result<Part, Refusal>) -> PartAnswer {
        match found {
            Ok(Part { place, length }) => PartAnswer {
                number: card::DONE,
                carried: 0,
                place,
                length,
            },
            Err(refusal) => PartAnswer {
                number: u32::from(refusal),
                carried: refusal.carried(),
                place: 0,
                length: 0,
            },
        }
    }
}

impl From<Result<Stamp, Refusal>> for StampAnswer {
    ghost use Rattle.std.specs.Prelude.{◌≡◌};
    ghost use Rattle.reader.specs.Answers.{told_of_stamp};

    ghost from_gives = { λ read answer. answer ≡ told_of_stamp read };

    fn from(read: Result<Stamp, Refusal>) -> StampAnswer {
        match read {
            Ok(stamp) => StampAnswer {
                number: card::DONE,
                carried: 0,
                stamp,
            },
            Err(refusal) => StampAnswer {
                number: u32::from(refusal),
                carried: refusal.carried(),
                stamp: Stamp {
                    month: 0,
                    day: 0,
                    year: 0,
                    hour: 0,
                    minute: 0,
                    second: 0,
                },
            },
        }
    }
}

impl PointAnswer {
    ghost use Rattle.std.specs.Prelude.{◌≡◌};
    ghost use Rattle.reader.specs.Answers.{plain_answer};

    // A value that is no text, with the number that C knows its kind by.
    fn of_bits(kind: u32, bits: u32) -> PointAnswer
        ensures { result ≡ plain_answer kind bits }
    {
        PointAnswer {
            number: card::DONE,
            carried: 0,
            kind,
            bits,
            place: 0,
            length: 0,
        }
    }
}

impl From<Value> for PointAnswer {
    ghost use Rattle.std.specs.Prelude.{◌≡◌};
    ghost use Rattle.reader.specs.Answers.{point_answer};

    ghost from_gives = { λ value answer. answer ≡ point_answer value };

    fn from(value: Value) -> PointAnswer {
        match value {
            Value::Flag(on) => PointAnswer::of_bits(1, u32::from(on)),
            Value::Int16(z) => PointAnswer::of_bits(2, i32::from(z).cast_unsigned()),
            Value::Int32(z) => PointAnswer::of_bits(3, z.cast_unsigned()),
            Value::Float(bits) => PointAnswer::of_bits(4, bits),
            Value::Text(Part { place, length }) => PointAnswer {
                number: card::DONE,
                carried: 0,
                kind: 5,
                bits: 0,
                place,
                length,
            },
            Value::Refused(refusal) => PointAnswer {
                number: u32::from(refusal),
                carried: refusal.carried(),
                kind: 0,
                bits: 0,
                place: 0,
                length: 0,
            },
        }
    }
}
