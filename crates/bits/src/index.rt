// Searches lent words for a bit: `bit_vector_index_of` of the Rust's util/mod.rs.
ghost use Rattle.std.specs.Prelude.{◌≡◌, ◌*◌, ◌^◌, ◌<◌, length};
ghost use mir.Val.{bool_byte};
ghost use Rattle.bits.specs.Bits.{FirstAt};
ghost use Rattle.bits.specs.Walk.{flipped};

// Returns a word with a one wherever `w`'s bit is `value`: the Rust's `w ^ flip_mask`.
fn flip(w: u32, value: bool) -> u32
    ensures { result ≡ flipped w value }
{
    if value { w } else { !w }
}

// Returns the first bit from `start` on that is `value`, or the number of bits if there is none.
pub fn bit_vector_index_of(buf: &[u32], start: usize, value: bool) -> usize
    requires { (start < 32 * length buf.now) × (length buf.now < 2 ^ 32) }
    ensures { FirstAt buf.now start (bool_byte value) result }
{
    // The mask has what is looked at of a word: of the first one the bits from `start` on, of the others all.
    let bit_index = (start % 32) as u32;
    let mut mask = u32::MAX << bit_index;
    for i in start / 32..buf.len() {
        let bits = flip(buf[i], value) & mask;
        if bits != 0 {
            return i * 32 + bits.trailing_zeros() as usize;
        }
        mask = u32::MAX;
    }
    buf.len() * 32
}
