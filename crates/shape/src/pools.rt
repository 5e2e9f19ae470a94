// Tests the pools' records for refusal 5, BadShape: each must equal the sums over its blocks.
ghost use Rattle.std.specs.Prelude.{◌≡◌, get_or};
ghost use Rattle.state.specs.Table.{all};
ghost use Rattle.shape.specs.Parts.{pool_matches, counted};
ghost use Rattle.shape.specs.Facts.{Countable};
ghost use Rattle.sizes.specs.Pools.{fresh_pool};

use block::Block;
use sizes::Pool;

// Adds one block to its pool's sums.
pub fn count_in(q: Pool, b: Block) -> Pool
    requires { Countable q b }
    ensures { result ≡ counted q b }
{
    Pool {
        blocks: q.blocks + 1,
        empty: q.empty + u32::from(b.is_empty()),
        area: q.area + b.area,
        used: q.used + b.used,
        ..q
    }
}

// True if a pool's record equals the sums over its blocks, and at most one of them is empty: none under immediate release.
pub fn pool_matches(stored: Pool, sums: Pool, immediate: bool) -> bool
    ensures { result ≡ pool_matches stored sums immediate }
{
    stored == sums && sums.empty <= u32::from(!immediate)
}

// True if `pool_matches` holds for each pool.
pub fn pools_match(stored: [Pool; 3], sums: [Pool; 3], immediate: bool) -> bool
    ensures { result ≡ all 3 (λ p. pool_matches (get_or stored p (fresh_pool 0)) (get_or sums p (fresh_pool 0)) immediate) }
{
    stored
        .iter()
        .zip(sums.iter())
        .all(|(a, b)| pool_matches(*a, *b, immediate))
}
