// Grants a span in a block that has a place for it.
#![tactic(auto)]

ghost use Rattle.std.specs.Prelude.{◌≡◌, ◌+◌, ◌-◌, ◌*◌, ◌^◌, ◌≤◌, ◌<◌, length};
ghost use Rattle.numbers.specs.Units.{bytes_of};
ghost use Rattle.state.specs.InTable.{InTable};
ghost use Rattle.state.specs.Table.{block_at, pool_at, one};
ghost use Rattle.state.specs.Shape.{is_empty};
ghost use Rattle.machine.specs.Turn.{turn_of, span, put_block, put_pool, with_live, with_counts, unit_of};
ghost use Rattle.machine.specs.Alloc.{alloc_marked};
ghost use Rattle.shape_facts.specs.Ready.{Markable};

use block::Block;
use sizes::Pool;
use state::{Answer, Outcome, Span, State};

// Updates a pool's counts after `n` units of its block `b` were marked. A block flagged empty is one of its empty blocks no longer.
fn counted(q: Pool, b: Block, n: u32) -> Pool
    requires empty_counted { one (is_empty b) ≤ q.empty }
    requires used_fits { q.used + n < 2 ^ 32 }
    ensures { result ≡ with_counts q (q.empty - one (is_empty b)) (q.used + n) }
{
    Pool {
        empty: q.empty - u32::from(b.is_empty()),
        used: q.used + n,
        ..q
    }
}

// Makes the span of `n` units of block `j` at base + `from` units.
fn span_from(s: State, j: usize, from: u32, n: u32) -> Span
    requires in_table { InTable s j }
    requires inside { from + n ≤ (block_at s j).area }
    requires addresses_fit { (block_at s j).base + (block_at s j).area * unit_of s (block_at s j) < 2 ^ 64 }
    ensures { result ≡ span ((block_at s j).base + bytes_of from (unit_of s (block_at s j))) (bytes_of n (unit_of s (block_at s j))) }
{
    let b = state::block_at(s, j);
    let before = spans::span_at(s, j, b.base, from);
    spans::span_at(s, j, b.base + before.size, n)
}

// Writes block `j`'s record `marked` into the table, and counts its `n` units and one live span more.
fn with_span(s: State, j: usize, marked: Block, n: u32) -> State
    requires in_table { InTable s j }
    requires empty_counted { one (is_empty (block_at s j)) ≤ (pool_at s (block_at s j).pool).empty }
    requires used_fits { (pool_at s (block_at s j).pool).used + n < 2 ^ 32 }
    requires live_fits { s.live + 1 < 2 ^ 64 }
    ensures { result ≡ with_live (put_pool (put_block s j marked) (block_at s j).pool
        (with_counts (pool_at s (block_at s j).pool) ((pool_at s (block_at s j).pool).empty - one (is_empty (block_at s j))) ((pool_at s (block_at s j).pool).used + n))) (s.live + 1) }
{
    let b = state::block_at(s, j);
    let old = state::pool_at(s, b.pool);
    let mut r = s;
    r.blocks[j] = marked;
    r.pools[b.pool] = counted(old, b, n);
    r.live = s.live + 1;
    r
}

// Marks `n` units from unit `from` on in the block of age `j`, and grants them as a span.
pub fn mark_span(
    s: State,
    used: &mut [u32],
    stop: &mut [u32],
    j: usize,
    from: u32,
    n: u32,
) -> Outcome
    requires { Markable s (length used.old) (length stop.old) j from n }
    ensures { turn_of result used.new stop.new ≡ alloc_marked s used.old stop.old j from n }
{
    let b = state::block_at(s, j);
    let span = span_from(s, j, from, n);
    let marked = block::mark::mark_allocated_area(b, used, stop, s.w, from, from + n);
    let state = with_span(s, j, marked, n);
    Outcome {
        answer: Answer::Granted(span),
        state,
    }
}
