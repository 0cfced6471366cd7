// The value of a point.
ghost use Rattle.std.specs.Prelude.{◌≡◌, ◌+◌, ◌-◌, ◌*◌, ◌<◌, ◌≤◌, eqb, length, take, drop};
ghost use Rattle.modbus.specs.Word.{number_of};
ghost use Rattle.points.specs.Table.{flag_at};
ghost use Rattle.records.specs.Value.{signed, value_in_stretch};
ghost use Rattle.reader.specs.Answers.{answered, point_in, point_value};
ghost use Rattle.reader.specs.Stretch.{IsLent};
ghost use Rattle.points.specs.declared.groups.Group.TheVariants.{Points};

use crate::answers::{Part, Value};
use crate::frame::Reply;
use crate::stretch::Stretch;
use basics::card::Refusal;
use points::Kind;
use points::table::is_flag_on;

// The numbers of a stretch have a function a type, of one line each: one for all types would need a trait over them, with a law for
// each, longer than the three.

// The signed 16-bit number whose high byte is at place i.
fn int16_at(bytes: &[u8], i: usize) -> i16
    requires { i + 2 ≤ length bytes.now }
    ensures { result ≡ signed 16 (number_of (take 2 (drop i bytes.now))) }
{
    i16::from_be_bytes(bytes[i..i + 2].try_into().unwrap())
}

// The signed 32-bit number whose highest byte is at place i.
fn int32_at(bytes: &[u8], i: usize) -> i32
    requires { i + 4 ≤ length bytes.now }
    ensures { result ≡ signed 32 (number_of (take 4 (drop i bytes.now))) }
{
    i32::from_be_bytes(bytes[i..i + 4].try_into().unwrap())
}

// The bits of the float whose highest byte is at place i.
fn float_at(bytes: &[u8], i: usize) -> u32
    requires { i + 4 ≤ length bytes.now }
    ensures { result ≡ number_of (take 4 (drop i bytes.now)) }
{
    u32::from_be_bytes(bytes[i..i + 4].try_into().unwrap())
}

impl Stretch<'_> {
    // The value of point e, counted from 0.
    #[tactic(auto, using(crate::proofs::Laws::stretch_laws))]
    fn value_at(&self, e: usize) -> Value
        requires lent { IsLent self.now }
        requires known { e < self.now.run.count }
        ensures { result ≡ answered (value_in_stretch self.now.run.row self.now.bytes.now e) (self.now.from + e * self.now.run.row.size) }
    {
        let bytes = self.bytes;
        let row = self.run.row;
        let size = usize::from(row.size);
        let at = e * size;
        match row.kind {
            Kind::Boolean => Value::Flag(is_flag_on(bytes, e)),
            Kind::Int16 => Value::Int16(int16_at(bytes, at)),
            Kind::Int32 => Value::Int32(int32_at(bytes, at)),
            Kind::Float => Value::Float(float_at(bytes, at)),
            Kind::Text8 | Kind::Text16 => Value::Text(Part {
                place: (self.from + at) as u32,
                length: size as u32,
            }),
        }
    }

    // The value of point e, counted from 1; Beyond where it names nothing.
    fn value(&self, e: u32) -> Value
        requires { IsLent self.now }
        ensures { result ≡ point_in (Points self.now.run) self.now.bytes.now self.now.from e }
    {
        if !(1..=u32::from(self.run.count)).contains(&e) {
            return Value::Refused(Refusal::Beyond);
        }
        self.value_at((e - 1) as usize)
    }
}

impl Reply<'_, '_> {
    // Point e of place g, both counted from 1, or the first row of the card that applies.
    #[tactic(auto, unfolding(crate::specs::Answers::point_value))]
    #[inline(always)]
    pub fn read_point(&self, g: u32, e: u32) -> Value
        ensures { result ≡ point_value self.now.groups.now self.now.day_first self.now.frame.now g e }
    {
        match self.stretch_of(g) {
            Ok(stretch) => stretch.value(e),
            Err(refusal) => Value::Refused(refusal),
        }
    }
}
