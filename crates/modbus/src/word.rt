// 16-bit words high byte first, in a lent part. Their bytes go by as numbers: an array of the two would be bytes of a record or of a reply
// that a poll's function keeps (docs/DECISIONS.md, D116).
ghost use Rattle.std.specs.Prelude.{◌≡◌, ◌+◌, ◌≤◌, length};
ghost use Rattle.basics.specs.Lists.{pasted};
ghost use Rattle.modbus.specs.Word.{word_at, word_bytes};

// The word whose high byte is at place i.
pub fn word_at(s: &[u8], i: usize) -> u16
    requires { i + 2 ≤ length s.now }
    ensures { result ≡ word_at s.now i }
{
    u16::from(s[i]) * 256 + u16::from(s[i + 1])
}

// Writes a word's two bytes from place i; every other byte stays.
pub fn put_word(s: &mut [u8], i: usize, w: u16)
    requires { i + 2 ≤ length s.old }
    ensures { s.new ≡ pasted s.old i (word_bytes w) }
{
    s[i] = (w / 256) as u8;
    s[i + 1] = (w % 256) as u8;
}
