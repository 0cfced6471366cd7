// The reading end as site drivers link it: the calls of `reader`, exported for C by what C is told of their results.
// include/windrow_reader.h has the same functions with their comments for C.
#![tactic(auto)]

ghost use Rattle.std.specs.Prelude.{◌≡◌};
ghost use Rattle.modbus.specs.Crc.{crc_of};
ghost use Rattle.reader.specs.Answers.{record_answer, stamp_answer, stretch_answer, point_answer, point_value};

use modbus::crc::crc_of;
use reader::Reply;
use reader::answers::{PartAnswer, PointAnswer, StampAnswer};

// The record: its place and length in the frame.
#[unsafe(no_mangle)]
#[tactic(auto, unfolding(reader::specs::Answers::record_answer))]
pub extern "C" fn windrow_reader_record(groups: &[u16], day_first: bool, frame: &[u8]) -> PartAnswer
    ensures { result ≡ record_answer groups.now day_first frame.now }
{
    let reply = Reply {
        groups,
        day_first,
        frame,
    };
    reply.find_record().into()
}

// The record's stamp: month, day, year, hour, minute, second, whatever the date order.
#[unsafe(no_mangle)]
#[tactic(auto, unfolding(reader::specs::Answers::stamp_answer))]
pub extern "C" fn windrow_reader_stamp(groups: &[u16], day_first: bool, frame: &[u8]) -> StampAnswer
    ensures { result ≡ stamp_answer groups.now day_first frame.now }
{
    let reply = Reply {
        groups,
        day_first,
        frame,
    };
    reply.read_stamp().into()
}

// The stretch of place g, counted from 1: its place and length in the frame.
#[unsafe(no_mangle)]
#[tactic(auto, unfolding(reader::specs::Answers::stretch_answer))]
pub extern "C" fn windrow_reader_stretch(
    groups: &[u16],
    day_first: bool,
    frame: &[u8],
    g: u32,
) -> PartAnswer
    ensures { result ≡ stretch_answer groups.now day_first frame.now g }
{
    let reply = Reply {
        groups,
        day_first,
        frame,
    };
    reply.find_stretch(g).into()
}

// Point e of place g, both counted from 1.
#[unsafe(no_mangle)]
pub extern "C" fn windrow_reader_point(
    groups: &[u16],
    day_first: bool,
    frame: &[u8],
    g: u32,
    e: u32,
) -> PointAnswer
    ensures { result ≡ point_answer (point_value groups.now day_first frame.now g e) }
{
    let reply = Reply {
        groups,
        day_first,
        frame,
    };
    reply.read_point(g, e).into()
}

// The CRC of a request that a driver makes, or of any other bytes; a frame carries its low byte first.
#[unsafe(no_mangle)]
pub extern "C" fn windrow_reader_crc(bytes: &[u8]) -> u16
    ensures { result ≡ crc_of bytes.now }
{
    crc_of(bytes)
}
