// Searches a pool's blocks, oldest first. A block searched in vain keeps its tightened window.
#![tactic(auto)]

ghost use Rattle.std.specs.Prelude.{◌≡◌, ℕ, ◌<◌, ◌≤◌, eqb, length};
ghost use Rattle.numbers.specs.Pick.{pick};
ghost use Rattle.sizes.specs.Limits.{slot_limit};
ghost use Rattle.block.specs.Record.{Placed};
ghost use Rattle.block.specs.Search.{look_into};
ghost use Rattle.state.specs.Table.{block_at};
ghost use Rattle.machine.specs.Alloc.{search_pool};

use block::Block;
use state::{Hit, Searched, State};

// Searches one block, if it is in the pool. One that is not is handed back as it was.
fn look_at(b: Block, used: &[u32], w: usize, pool: usize, n: u32) -> Result<u32, Block>
    requires { Placed b w (length used.now) (length used.now) × (0 < n) }
    ensures { result ≡ pick (eqb b.pool pool) (look_into w b used.now n) (Err b) }
{
    if b.pool == pool {
        block::look::look_into(b, used, w, n)
    } else {
        Err(b)
    }
}

// Finds the oldest block of the pool that has a place for `n` units, and the lowest place in it.
pub fn search_pool(s: State, used: &[u32], pool: usize, n: u32) -> Searched
    requires { (s.count ≤ slot_limit) × (0 < n) × ((i : ℕ) → i < s.count → Placed (block_at s i) s.w (length used.now) (length used.now)) }
    ensures { result ≡ search_pool s used.now pool n }
{
    let mut r = s;
    for i in 0..s.count {
        match look_at(r.blocks[i], used, r.w, pool, n) {
            Ok(unit) => {
                return Searched {
                    hit: Some(Hit { age: i, unit }),
                    state: r,
                };
            }
            Err(b) => r.blocks[i] = b,
        }
    }
    Searched {
        hit: None,
        state: r,
    }
}
