// Frames of Modbus RTU, built where they are sent from: at the start of the reply buffer that C lends; so what is answered is a length.
ghost use Rattle.std.specs.Prelude.{◌≡◌, ◌+◌, ◌≤◌, length, take, drop};
ghost use Rattle.basics.specs.Lists.{pasted};
ghost use Rattle.modbus.specs.Crc.{with_crc};
ghost use Rattle.modbus.specs.Frame.{read_reply_by, high_bit_set, exception_reply, Sent};

use crate::crc::crc_of;

// The functions that a gateway knows.
#[derive(Clone, Copy, Debug, PartialEq, Eq)]
pub enum Function {
    // flags read
    ReadFlags = 1,
    // all else read
    Read = 3,
    // a requested number written
    Write = 6,
}

impl From<Function> for u8 {
    ghost use Rattle.std.specs.Prelude.{◌≡◌};
    ghost use Rattle.modbus.specs.Frame.{function_number};

    ghost from_gives = { λ function number. number ≡ function_number function };

    fn from(function: Function) -> u8 {
        function as u8
    }
}

impl TryFrom<u8> for Function {
    type Error = Exception;

    ghost use Rattle.std.specs.Prelude.{◌≡◌};
    ghost use Rattle.modbus.specs.Frame.{function_by};

    ghost try_from_gives = { λ number result. result ≡ function_by number };

    fn try_from(number: u8) -> Result<Function, Exception> {
        match number {
            1 => Ok(Function::ReadFlags),
            3 => Ok(Function::Read),
            6 => Ok(Function::Write),
            _ => Err(Exception::IllegalFunction),
        }
    }
}

// Why a request is refused, by its name in the Modbus standard.
#[derive(Clone, Copy, Debug, PartialEq, Eq)]
pub enum Exception {
    IllegalFunction = 1,
    IllegalAddress = 2,
    IllegalValue = 3,
}

impl From<Exception> for u8 {
    ghost use Rattle.std.specs.Prelude.{◌≡◌};
    ghost use Rattle.modbus.specs.Frame.{code_of};

    ghost from_gives = { λ exception code. code ≡ code_of exception };

    fn from(exception: Exception) -> u8 {
        exception as u8
    }
}

// Puts the CRC of a frame's first n bytes behind them, low byte first.
#[tactic(auto, using(crate::proofs::Laws::crc_behind))]
fn write_crc(buffer: &mut [u8], n: usize)
    requires { n + 2 ≤ length buffer.old }
    ensures { buffer.new ≡ pasted buffer.old 0 (with_crc (take n buffer.old)) }
{
    let sum = crc_of(&buffer[..n]);
    // byte by byte: an array of the two would be reply bytes that a poll's function keeps (docs/DECISIONS.md, D116)
    buffer[n] = (sum % 256) as u8;
    buffer[n + 1] = (sum / 256) as u8;
}

// Makes a read reply of the bytes that stand from byte 3 on, and answers its length. It carries the function that asked.
// The function is a byte: the reply to a poll of live points carries the request's own, of which a Function would be made again. Buffer,
// unit and function go on as three: C lends the first, the state has the second and the request the third. A frame has at most 250 bytes
// of data, which is asked: a type for such a size would be made for one call.
pub fn close_read_reply(buffer: &mut [u8], unit: u8, function: u8, size: usize) -> usize
    requires { (size ≤ 250) × (size + 5 ≤ length buffer.old) }
    ensures { Sent (read_reply_by unit function (take size (drop 3 buffer.old)))
        buffer.old result buffer.new }
{
    buffer[0] = unit;
    buffer[1] = function;
    buffer[2] = size as u8;
    write_crc(buffer, size + 3);
    size + 5
}

// A function with its highest bit set.
#[tactic(auto, using(crate::proofs::Laws::high_bit_or))]
fn high_bit_set(function: u8) -> u8
    ensures { result ≡ high_bit_set function }
{
    function | 0x80
}

// Writes an exception, and answers its length.
// The function is a byte, since one that no Function names is answered too. The code is a byte as well: an Exception names three of the
// standard's codes, and this function takes any of them (docs/DECISIONS.md, D158).
pub fn write_exception(buffer: &mut [u8], unit: u8, function: u8, code: u8) -> usize
    requires { 5 ≤ length buffer.old }
    ensures { Sent (exception_reply unit function code) buffer.old result buffer.new }
{
    buffer[0] = unit;
    buffer[1] = high_bit_set(function);
    buffer[2] = code;
    write_crc(buffer, 3);
    5
}
