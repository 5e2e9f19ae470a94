// The call alloc.
#![tactic(auto)]

ghost use Rattle.std.specs.Prelude.{◌≡◌, length, Ok};
ghost use Rattle.machine.specs.Turn.{turn_of};
ghost use Rattle.machine.specs.Alloc.{alloc_rounded, alloc_turn};
ghost use Rattle.shape_facts.specs.Ready.{Allocates};

use state::{Outcome, Refusal, State};

// Grants `bytes` bytes, a rounded size that is not refused, in the first block of its pool that has a place, or in a new one.
fn alloc_rounded(s: State, used: &mut [u32], stop: &mut [u32], bytes: u64) -> Outcome
    requires { Allocates s (length used.old) (length stop.old) bytes }
    ensures { turn_of result used.new stop.new ≡ alloc_rounded s used.old stop.old (Ok bytes) }
{
    let p = sizes::size_to_pool_id(bytes, s.granularity, s.poolcount);
    let q = s.pools[p];
    let n = numbers::area_size_from_byte_size(bytes, q.granularity);
    let found = alloc_search::search_pool(s, used, p, n);
    let r = found.state;
    match found.hit {
        Some(hit) => alloc_mark::mark_span(r, used, stop, hit.age, hit.unit, n),
        None => {
            let newest = table::newest_size(r, p);
            let size = sizes::calculate_ideal_block_size(newest, bytes);
            alloc_new::new_span(r, used, stop, p, n, size)
        }
    }
}

// Grants a span of at least `size` bytes.
#[tactic(auto, unfolding(machine::specs::Alloc::alloc_turn))]
pub fn alloc(s: State, used: &mut [u32], stop: &mut [u32], size: u64) -> Outcome
    ensures { turn_of result used.new stop.new ≡ alloc_turn s used.old stop.old size }
{
    if !shape::shape_ok(s, used.len(), stop.len()) {
        return state::refused(s, Refusal::BadShape);
    }
    match sizes::round_size(size, s.granularity) {
        Ok(bytes) => alloc_rounded(s, used, stop, bytes),
        Err(why) => state::refused(s, why.into()),
    }
}
