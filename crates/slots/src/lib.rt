// Reads, marks and clears slots. A map consists of slots of `w` words each, and a block has one slot in each map.
#![tactic(auto)]

ghost use Rattle.std.specs.Prelude.{◌≡◌, ◌+◌, ◌*◌, ◌^◌, ◌≤◌, ◌<◌, length, replicate};
ghost use Rattle.std.specs.Borrow.{sem};
ghost use mir.Val.{bool_byte};
ghost use Rattle.bits.specs.Bits.{filled};
ghost use Rattle.slots.specs.Slots.{slot_of, fill_slot, put_slot};
ghost use Rattle.slots.specs.Back.{LendsPart};

// Lends a slot's words for reading.
pub fn slot(words: &[u32], slot: usize, w: usize) -> &[u32]
    requires { (slot + 1) * w ≤ length words.now }
    ensures { result.now ≡ slot_of w slot words.now }
{
    let a = slot * w;
    let e = a + w;
    &words[a..e]
}

// Lends a slot's words for writing. `back`: once the slot's final words are known, so are the map's.
pub fn slot_mut(words: &mut [u32], slot: usize, w: usize) -> &mut [u32]
    requires { (slot + 1) * w ≤ length words.old }
    ensures result_value { result.now ≡ slot_of w slot words.old }
    ensures* back { sem 𝓛 (LendsPart (slot * w) w words.entry result) }
{
    let a = slot * w;
    let e = a + w;
    &mut words[a..e]
}

// Writes `value` to `n` bits of a slot's words, and says which words these become. It stands apart so that `write` only lends.
fn put(part: &mut [u32], from: usize, n: usize, value: bool)
    requires { (from + n ≤ 32 * length part.old) × (length part.old < 2 ^ 32) }
    ensures { part.new ≡ filled part.old from n (bool_byte value) }
{
    bits::fill::bit_vector_set_bits(part, from, n, value);
}

// Sets or clears the `n` units from `from` on of a slot: all marking goes through here.
pub fn write(words: &mut [u32], slot: usize, w: usize, from: usize, n: usize, value: bool)
    requires { ((slot + 1) * w ≤ length words.old) × (from + n ≤ 32 * w) × (w < 2 ^ 32) }
    ensures { words.new ≡ fill_slot w slot words.old from n (bool_byte value) }
{
    let part = slot_mut(words, slot, w);
    put(part, from, n, value);
}

// ---- units of a slot

// Sets the `n` units from `from` on of a slot, in the used map or the stop map.
pub fn mark(words: &mut [u32], slot: usize, w: usize, from: usize, n: usize)
    requires { ((slot + 1) * w ≤ length words.old) × (from + n ≤ 32 * w) × (w < 2 ^ 32) }
    ensures { words.new ≡ fill_slot w slot words.old from n 1 }
{
    write(words, slot, w, from, n, true);
}

// Clears the `n` units from `from` on of a slot.
pub fn unmark(words: &mut [u32], slot: usize, w: usize, from: usize, n: usize)
    requires { ((slot + 1) * w ≤ length words.old) × (from + n ≤ 32 * w) × (w < 2 ^ 32) }
    ensures { words.new ≡ fill_slot w slot words.old from n 0 }
{
    write(words, slot, w, from, n, false);
}

// Clears all words of a slot. To clear all of its units would be the same (`slot_cleared`).
#[tactic(auto, using(crate::proofs::Laws::slot_cleared))]
pub fn clear_slot(words: &mut [u32], slot: usize, w: usize)
    requires { ((slot + 1) * w ≤ length words.old) × (w < 2 ^ 32) }
    ensures { words.new ≡ put_slot w slot words.old (replicate w 0) }
{
    let a = slot * w;
    let e = a + w;
    words[a..e].fill(0);
}
