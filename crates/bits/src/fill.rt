// Sets and clears ranges of bits in lent 32-bit words: `bit_vector_fill` and `bit_vector_clear` of the Rust's util/mod.rs.
ghost use Rattle.std.specs.Prelude.{◌+◌, ◌*◌, ◌^◌, ◌<◌, ◌≤◌, length};
ghost use mir.Val.{bool_byte};
ghost use Rattle.bits.specs.Bits.{Filled};

// Writes `count` bits from bit `index` on, one at a time.
fn put_bits(buf: &mut [u32], index: usize, count: usize, value: bool)
    requires { (index + count ≤ 32 * length buf.old) × (length buf.old < 2 ^ 32) }
    ensures { Filled buf.old index count (bool_byte value) buf.new }
{
    for i in 0..count {
        crate::bit_vector_set_bit(buf, index + i, value);
    }
}

// Writes `value` to the `count` bits from `index` on: the body of the Rust's macro `bitvector_op`. It lends on only the words from the first
// one that changes.
pub fn bit_vector_set_bits(buf: &mut [u32], index: usize, count: usize, value: bool)
    requires { (index + count ≤ 32 * length buf.old) × (length buf.old < 2 ^ 32) }
    ensures { Filled buf.old index count (bool_byte value) buf.new }
{
    let vec_index = index / 32;
    let bit_index = index % 32;
    put_bits(&mut buf[vec_index..], bit_index, count, value);
}

pub fn bit_vector_fill(buf: &mut [u32], index: usize, count: usize)
    requires { (index + count ≤ 32 * length buf.old) × (length buf.old < 2 ^ 32) }
    ensures { Filled buf.old index count 1 buf.new }
{
    bit_vector_set_bits(buf, index, count, true);
}

pub fn bit_vector_clear(buf: &mut [u32], index: usize, count: usize)
    requires { (index + count ≤ 32 * length buf.old) × (length buf.old < 2 ^ 32) }
    ensures { Filled buf.old index count 0 buf.new }
{
    bit_vector_set_bits(buf, index, count, false);
}
