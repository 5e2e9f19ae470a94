// Reads and writes single bits in lent 32-bit words, as `bit_vector_*` of the Rust's util/mod.rs.
// Bit k of a map is bit k % 32 of word k / 32.
#![tactic(auto)]

pub mod fill;
pub mod index;

ghost use Rattle.std.specs.Prelude.{◌≡◌, ◌*◌, ◌<◌, length};
ghost use mir.Val.{bool_byte};
ghost use Rattle.bits.specs.Bits.{bit, Filled};

pub fn bit_vector_get_bit(buf: &[u32], index: usize) -> bool
    requires { index < 32 * length buf.now }
    ensures { bool_byte result ≡ bit buf.now index }
{
    let vec_index = index / 32;
    let bit_index = (index % 32) as u32;
    ((buf[vec_index] >> bit_index) & 1) != 0
}

pub fn bit_vector_set_bit(buf: &mut [u32], index: usize, value: bool)
    requires { index < 32 * length buf.old }
    ensures { Filled buf.old index 1 (bool_byte value) buf.new }
{
    let vec_index = index / 32;
    let bit_index = (index % 32) as u32;
    if value {
        buf[vec_index] |= 1 << bit_index;
    } else {
        buf[vec_index] &= !(1 << bit_index);
    }
}
