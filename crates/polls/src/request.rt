// What a request asks for: the checks in their order, and the address table row by row.
ghost use Rattle.std.specs.Prelude.{◌≡◌, ◌≤◌, length};
ghost use Rattle.points.specs.Table.{row_of};
ghost use Rattle.polls.specs.Addresses.{on_requested, function_for, number_in, record_asked, registers_asked, points_asked, live_asked, read_asked, write_asked};
ghost use Rattle.polls.specs.View.{limit_in};
ghost use Rattle.polls.specs.Frames.{asked};
ghost use Rattle.polls.specs.Lent.{sent_size};

use archive::layout::{FILES, File};
use modbus::frame::{Exception, Function};
use modbus::word::word_at;
use points::groups::STAMP_BYTES;
use points::{Row, Run};

// What of a record is read: all of it, or its stamp only.
#[derive(Clone, Copy, Debug, PartialEq, Eq)]
pub enum Part {
    Whole,
    Stamp,
}

impl Part {
    // How many bytes of a record are sent, of which there are `size`.
    pub fn sent_size(self, size: usize) -> usize
        ensures { result ≡ sent_size self size }
    {
        match self {
            Part::Whole => size,
            Part::Stamp => STAMP_BYTES,
        }
    }
}

// What a request asks for once it has passed its checks. Files and registers are counted from 0, records from 1.
#[derive(Clone, Copy, Debug, PartialEq, Eq)]
pub enum Asked {
    Record {
        file: usize,
        number: u16,
        part: Part,
    },
    Registers {
        first: usize,
        count: usize,
    },
    // of the live table
    LivePoints(Run),
    // the number that is requested of a file from now on
    SetRequested {
        file: usize,
        number: u16,
    },
}

// The registers' addresses, three for each file.
const FIRST_REGISTER: u16 = 3701;

const LAST_REGISTER: u16 = 3733;

const ALL_REGISTERS: u16 = 33;

// The most bytes of data in a reply.
const MOST_DATA: usize = 250;

// A number of 1 to n.
fn number_in(n: u16, number: u16) -> Result<u16, Exception>
    ensures { result ≡ number_in n number }
{
    if (1..=n).contains(&number) {
        Ok(number)
    } else {
        Err(Exception::IllegalValue)
    }
}

// A record of a file of n records, or its stamp only.
#[tactic(auto, unfolding(crate::specs::Addresses::record_asked))]
fn ask_record(n: u16, file: usize, number: u16, part: Part) -> Result<Asked, Exception>
    ensures { result ≡ record_asked n file number part }
{
    let number = number_in(n, number)?;
    Ok(Asked::Record { file, number, part })
}

// A run of registers, across files.
#[tactic(auto, unfolding(crate::specs::Addresses::registers_asked))]
fn ask_registers(first: u16, quantity: u16) -> Result<Asked, Exception>
    requires { first ≤ 1000 }
    ensures { result ≡ registers_asked first quantity }
{
    let count = number_in(ALL_REGISTERS, quantity)?;
    if ALL_REGISTERS < first + count {
        return Err(Exception::IllegalAddress);
    }
    Ok(Asked::Registers {
        first: usize::from(first),
        count: usize::from(count),
    })
}

// Points of a row of the live table.
#[tactic(auto, unfolding(crate::specs::Addresses::points_asked))]
fn ask_points(run: Run) -> Result<Asked, Exception>
    ensures { result ≡ points_asked run.row run.point run.count }
{
    if run.count == 0 {
        return Err(Exception::IllegalValue);
    }
    if MOST_DATA < run.bytes() {
        return Err(Exception::IllegalValue);
    }
    if !run.ends() {
        return Err(Exception::IllegalAddress);
    }
    Ok(Asked::LivePoints(run))
}

// The function that reads a row of the live table: 01 for the Booleans, 03 for any other.
fn function_for(row: Row) -> Function
    ensures { result ≡ function_for row }
{
    if row.is_bits() {
        Function::ReadFlags
    } else {
        Function::Read
    }
}

// Live points, by function 01 or 03.
fn ask_live(function: Function, address: u16, quantity: u16) -> Result<Asked, Exception>
    ensures { result ≡ live_asked function (row_of address) address quantity }
{
    match Row::of(address) {
        Some(row) if function == function_for(row) => ask_points(Run {
            row,
            point: address,
            count: quantity,
        }),
        _ => Err(Exception::IllegalAddress),
    }
}

// Function 03.
// The requested numbers are the state's own array, as C stores them.
#[tactic(auto, unfolding(crate::specs::Addresses::read_asked))]
fn ask_read(
    address: u16,
    quantity: u16,
    files: &[File; FILES],
    requested: &[u16; FILES],
) -> Result<Asked, Exception>
    ensures { result ≡ read_asked (limit_in files.now) requested.now address quantity }
{
    match address {
        701..=711 => {
            let f = usize::from(address - 701);
            ask_record(files[f].limit, f, requested[f], Part::Whole)
        }
        721..=731 => {
            let f = usize::from(address - 721);
            ask_record(files[f].limit, f, quantity, Part::Whole)
        }
        751..=761 => {
            let f = usize::from(address - 751);
            ask_record(files[f].limit, f, requested[f], Part::Stamp)
        }
        771..=781 => {
            let f = usize::from(address - 771);
            ask_record(files[f].limit, f, quantity, Part::Stamp)
        }
        FIRST_REGISTER..=LAST_REGISTER => ask_registers(address - FIRST_REGISTER, quantity),
        _ => ask_live(Function::Read, address, quantity),
    }
}

// Whether an address is that of a file's third register, its requested number.
fn is_on_requested(address: u16) -> bool
    ensures { result ≡ on_requested address }
{
    match address {
        FIRST_REGISTER..=LAST_REGISTER => (address - FIRST_REGISTER) % 3 == 2,
        _ => false,
    }
}

// Function 06.
#[tactic(auto, unfolding(crate::specs::Addresses::write_asked, crate::specs::Addresses::number_asked))]
fn ask_write(address: u16, value: u16, files: &[File; FILES]) -> Result<Asked, Exception>
    ensures { result ≡ write_asked (limit_in files.now) address value }
{
    if !is_on_requested(address) {
        return Err(Exception::IllegalAddress);
    }
    let file = usize::from((address - FIRST_REGISTER) / 3);
    let number = number_in(files[file].limit, value)?;
    Ok(Asked::SetRequested { file, number })
}

// What a frame that was heard asks for.
#[tactic(auto, unfolding(crate::specs::Frames::asked))]
pub fn ask(
    frame: &[u8],
    files: &[File; FILES],
    requested: &[u16; FILES],
) -> Result<Asked, Exception>
    requires { 4 ≤ length frame.now }
    ensures { result ≡ asked (limit_in files.now) requested.now frame.now }
{
    let function = Function::try_from(frame[1])?;
    if frame.len() != 8 {
        return Err(Exception::IllegalValue);
    }
    let address = word_at(frame, 2);
    let quantity = word_at(frame, 4);
    match function {
        Function::ReadFlags => ask_live(function, address, quantity),
        Function::Read => ask_read(address, quantity, files, requested),
        Function::Write => ask_write(address, quantity, files),
    }
}
