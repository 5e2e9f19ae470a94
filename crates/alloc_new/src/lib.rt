// Makes a new block for a pool, with a span in it.
#![tactic(auto)]

ghost use Rattle.std.specs.Prelude.{◌≡◌, length};
ghost use Rattle.state.specs.Change.{inserted};
ghost use Rattle.machine.specs.Turn.{turn_of, clear_slot};
ghost use Rattle.machine.specs.Alloc.{alloc_marked, alloc_new};
ghost use Rattle.shape_facts.specs.Ready.{Makeable, Makes};

use block::Block;
use state::{Outcome, Refusal, State};

// Clears the slot of the new block `b`, enters `b` into the table and grants a span of `n` units at its unit 0.
fn make_span(s: State, used: &mut [u32], stop: &mut [u32], b: Block, n: u32) -> Outcome
    requires { Makeable s (length used.old) (length stop.old) b n }
    ensures { turn_of result used.new stop.new ≡ alloc_marked (inserted s b) (clear_slot s.w b.slot used.old) (clear_slot s.w b.slot stop.old) s.count 0 n }
{
    let w = s.w;
    let slot = b.slot;
    let count = s.count;
    slots::clear_slot(used, slot, w);
    slots::clear_slot(stop, slot, w);
    let r = table::insert::insert_block(s, b);
    alloc_mark::mark_span(r, used, stop, count, 0, n)
}

// Makes a block of `bytes` bytes for pool `p`, and grants a span of `n` units at its unit 0.
// Refuses (4) if there is no place, no free slot, or the block's words exceed W.
pub fn new_span(
    s: State,
    used: &mut [u32],
    stop: &mut [u32],
    p: usize,
    n: u32,
    bytes: u64,
) -> Outcome
    requires { Makes s (length used.old) (length stop.old) p n bytes }
    ensures { turn_of result used.new stop.new ≡ alloc_new s used.old stop.old p n bytes }
{
    let Some(at) = table::lowest_place(s, bytes) else {
        return state::refused(s, Refusal::NoMapping);
    };
    let Some(slot) = table::lowest_free_slot(s) else {
        return state::refused(s, Refusal::NoMapping);
    };
    let q = state::pool_at(s, p);
    let area = numbers::area_size_from_byte_size(bytes, q.granularity);
    let words = numbers::area_size_from_byte_size(area as u64, 32);
    if s.w < words as usize {
        return state::refused(s, Refusal::NoMapping);
    }
    let b = block::new_block(at, bytes, p, slot, area, n);
    make_span(s, used, stop, b, n)
}
