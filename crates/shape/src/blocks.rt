// Tests one block by itself for refusal 5, BadShape. Its numbers may be any.
ghost use Rattle.std.specs.Prelude.{◌≡◌, ◌≤◌};
ghost use Rattle.sizes.specs.Limits.{max_slot_words};
ghost use Rattle.state.specs.Shape.{place_ok, area_ok, fields_ok, inside_ok, empty_ok, is_zero};
ghost use Rattle.shape.specs.Parts.{block_ok};

use block::Block;
use state::State;

// True if each of the block's numbers is 0, as behind the last block of the table.
pub fn is_zero(b: &Block) -> bool
    ensures { result ≡ is_zero b.now }
{
    *b == Block::default()
}

// True if there is such a slot and such a pool.
fn place_ok(b: &Block, s: &State) -> bool
    ensures { result ≡ place_ok s.now b.now }
{
    b.slot < s.slots && b.pool < s.poolcount
}

// True if the block's area is not 0, a multiple of 32, times the granularity its size, and not past its slot.
fn area_ok(b: &Block, s: &State) -> bool
    requires { (s.now.granularity ≤ 256) × (s.now.w ≤ max_slot_words) }
    ensures { result ≡ area_ok s.now b.now }
{
    let area = u64::from(b.area);
    b.area != 0 && b.area % 32 == 0 && area <= 32 * s.w as u64 && area * s.granularity == b.size
}

// True if the used units, the window and the largest run are within the area.
fn fields_ok(b: &Block) -> bool
    ensures { result ≡ fields_ok b.now }
{
    b.used <= b.area && b.start <= b.area && b.end <= b.area && b.largest <= b.area
}

// True if the block lies in the arena. It compares before it subtracts, so nothing wraps.
fn inside_ok(b: &Block, s: &State) -> bool
    ensures { result ≡ inside_ok s.now b.now }
{
    b.base >= s.arena && b.size <= s.length && b.base - s.arena <= s.length - b.size
}

// True if the block is flagged empty exactly if no unit is used.
fn empty_ok(b: &Block) -> bool
    ensures { result ≡ empty_ok b.now }
{
    b.is_empty() == (b.used == 0)
}

// Tests all that BadShape asks of one block by itself, in the order in which it asks.
#[tactic(auto, unfolding(crate::specs::Parts::block_ok))]
pub fn block_ok(b: &Block, s: &State) -> bool
    requires { (s.now.granularity ≤ 256) × (s.now.w ≤ max_slot_words) }
    ensures { result ≡ block_ok s.now b.now }
{
    place_ok(b, s)
        && b.base % sizes::PAGE == 0
        && area_ok(b, s)
        && fields_ok(b)
        && inside_ok(b, s)
        && empty_ok(b)
        && b.flags <= Block::FLAG_EMPTY + Block::FLAG_DIRTY
}
