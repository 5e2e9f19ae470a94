// Tests creation's numbers in the record and the lengths of the two slices for refusal 5, BadShape. The numbers may be any: no sum wraps.
ghost use Rattle.std.specs.Prelude.{◌≡◌, ◌≤◌};
ghost use Rattle.sizes.specs.Limits.{max_slot_words, slot_limit};
ghost use Rattle.state.specs.Shape.{arena_ok, numbers_ok, slots_ok, slices_ok};
ghost use Rattle.shape.specs.Parts.{head_ok};

use state::State;

// Where the arena ends at the latest.
const ADDRESSES: u64 = 1 << 48;

// True if the arena's base and length are non-zero multiples of the page, and it ends in time.
pub fn arena_ok(base: u64, length: u64) -> bool
    ensures { result ≡ arena_ok base length }
{
    base != 0
        && length != 0
        && base % sizes::PAGE == 0
        && length % sizes::PAGE == 0
        && base <= ADDRESSES
        && length <= ADDRESSES - base
}

// True if creation's numbers are within the limits.
fn numbers_ok(s: &State) -> bool
    ensures { result ≡ numbers_ok s.now }
{
    sizes::limits::is_base_size(s.size)
        && sizes::limits::is_granularity(s.granularity)
        && (s.poolcount == 1 || s.poolcount == 3)
        && (1..=state::MAX_SLOT_WORDS).contains(&s.w)
        && arena_ok(s.arena, s.length)
}

// True if there are 1 to 64 slots.
fn slots_ok(s: &State) -> bool
    ensures { result ≡ slots_ok s.now }
{
    (1..=state::SLOT_LIMIT).contains(&s.slots)
}

// True if both slices have a word for each of every slot.
fn slices_ok(s: &State, used: usize, stop: usize) -> bool
    requires { (s.now.slots ≤ slot_limit) × (s.now.w ≤ max_slot_words) }
    ensures { result ≡ slices_ok s.now used stop }
{
    let words = s.slots * s.w;
    words <= used && words <= stop
}

// Tests the numbers in the record, and the lengths of the two slices.
#[tactic(auto, unfolding(crate::specs::Parts::head_ok))]
pub fn head_ok(s: &State, used: usize, stop: usize) -> bool
    ensures { result ≡ head_ok s.now used stop }
{
    numbers_ok(s) && slots_ok(s) && slices_ok(s, used, stop) && s.count <= s.slots
}
