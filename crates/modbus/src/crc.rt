// The CRC-16 of Modbus RTU, a byte at a time by a table.
ghost use Rattle.std.specs.Prelude.{◌≡◌};
ghost use Rattle.modbus.specs.Crc.{crc_of, ends_in_crc};

use crate::crc_steps::CRC_STEPS;

// The CRC of a slice of any length, its low and its high byte kept apart. Each byte of the slice takes one step: the table has what eight
// shifts make of the low byte with that byte exclusive-ored in, and the eight shifts move the high byte down as it is. The two bytes are
// in machine words, so that each has a whole register (docs/DECISIONS.md, D138).
#[tactic(auto, unfolding(crate::specs::Crc::crc_from, crate::specs::Crc::crc_of, crate::specs::Crc::crc_shifts, crate::specs::Crc::crc_shift, basics::specs::Lists::tabulate))]
pub fn crc_of(s: &[u8]) -> u16
    ensures { result ≡ crc_of s.now }
{
    // before the loop: the compiler fills the table wherever it is named (D137)
    let steps = CRC_STEPS;
    let mut low: usize = 0xFF;
    let mut high: usize = 0xFF;
    for byte in s {
        let step = usize::from(steps[low ^ usize::from(*byte)]);
        low = high ^ (step % 256);
        high = step / 256;
    }
    (high * 256 + low) as u16
}

// Whether a frame of any length ends in the CRC of what is before, low byte first; one of 0 or 1 bytes does not.
#[tactic(auto, unfolding(crate::specs::Crc::ends_in_crc))]
pub fn ends_in_crc(frame: &[u8]) -> bool
    ensures { result ≡ ends_in_crc frame.now }
{
    match frame {
        // byte by byte: an array of the two would be bytes that a poll's function keeps (docs/DECISIONS.md, D116)
        [body @ .., low, high] => {
            let sum = crc_of(body);
            *low == (sum % 256) as u8 && *high == (sum / 256) as u8
        }
        _ => false,
    }
}
