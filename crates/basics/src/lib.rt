// What every other crate shares: the refusals of the service card, a copy of bytes, and in proofs/ facts of logic, lists and arithmetic.
#![tactic(auto)]

ghost use Rattle.std.specs.Prelude.{◌≡◌, length};

pub mod card;

// Copies bytes into a part of their length. A loop, and not the library's `copy_from_slice`: of that the compiler makes a `memmove`, and
// firmware without a C library is to supply `memcpy` and `memset` alone.
// One index goes for both: with `to.iter_mut().zip(bytes)` no proof knows what is written through the pair.
#[tactic(auto, using(crate::proofs::Lists::filled_none))]
pub fn copy_bytes(to: &mut [u8], bytes: &[u8])
    requires { length to.old ≡ length bytes.now }
    ensures { to.new ≡ bytes.now }
{
    for (i, byte) in to.iter_mut().enumerate() {
        *byte = bytes[i];
    }
}
