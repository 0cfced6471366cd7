// Booleans repacked from the live table's alignment to the group's own.
// A lent part, of archive memory or of the reply buffer, is handed on from writer to writer, piece by piece: a form that the project asks for.
ghost use Rattle.std.specs.Prelude.{◌≡◌, ◌+◌, ◌/◌, ◌%◌, ◌^◌, ◌<◌, ◌≤◌, length};
ghost use Rattle.basics.specs.Lists.{tabulate};
ghost use Rattle.points.specs.Table.{packed_size};
ghost use Rattle.records.specs.Capture.{from_bits, flags, packed_byte};
ghost use Rattle.records.specs.Lent.{LentFlags};

// The m lowest bits of a word, by a mask.
#[tactic(auto, using(crate::proofs::Bits::mask_laws))]
fn low_bits(word: u16, m: u16) -> u8
    requires { m ≤ 8 }
    ensures { result ≡ word % 2 ^ m }
{
    (word & ((1 << m) - 1)) as u8
}

// The m Booleans from bit `at` of the bytes from `offset` on, as a byte. They stand in at most two bytes of the table, which are
// joined, shifted to the byte's own alignment and masked.
// Shifts and masks are the form that the project asks for here.
fn window(table: &[u8], offset: usize, at: usize, m: u16) -> u8
    requires { (offset + at / 8 + 1 < length table.now) × (m ≤ 8) }
    ensures { result ≡ from_bits (flags table.now offset at m) }
{
    let byte = offset + at / 8;
    let shift = (at % 8) as u16;
    let word = u16::from(table[byte]) | (u16::from(table[byte + 1]) << 8);
    low_bits(word >> shift, m)
}

// Writes n Booleans from number `first` of the row at byte `offset` on, eight to a byte, into a part of their size.
#[tactic(auto, using(basics::proofs::Lists::filled_none))]
pub fn write_flags(part: &mut [u8], table: &[u8], offset: usize, first: usize, n: usize)
    requires { LentFlags part.old table.now offset first n }
    ensures { part.new ≡ tabulate (packed_size n) (packed_byte (flags table.now offset first n)) }
{
    for (i, byte) in part.iter_mut().enumerate() {
        let left = n - 8 * i;
        *byte = window(table, offset, first + 8 * i, left.min(8) as u16);
    }
}
