// After units were freed: drops the block, or keeps it as its pool's empty one.
#![tactic(auto)]

ghost use Rattle.std.specs.Prelude.{◌≡◌, ◌≤◌, length};
ghost use Rattle.state.specs.declared.Answer.{Answer};
ghost use Rattle.state.specs.InTable.{InTable};
ghost use Rattle.state.specs.Table.{block_at, pool_at};
ghost use Rattle.machine.specs.Turn.{turn};
ghost use Rattle.machine.specs.Release.{less_used, settle};
ghost use Rattle.shape_facts.specs.Ready.{Settles};

use block::Block;
use state::State;

// Writes block `j`'s record `b` into the table, and takes `n` units off its pool's used count.
pub fn less_used(s: State, j: usize, b: Block, n: u32) -> State
    requires in_table { InTable s j }
    requires counted { n ≤ (pool_at s (block_at s j).pool).used }
    ensures { result ≡ less_used s j b n }
{
    let old = state::block_at(s, j);
    let mut r = s;
    r.blocks[j] = b;
    r.pools[old.pool].used -= n;
    r
}

// Removes an empty block if its pool keeps one already or immediate release is set; else keeps it. Leaves a block with used units alone.
// A turn contains the answer, which only the caller knows, so the contract holds for every answer.
pub fn settle(s: State, used: &mut [u32], stop: &mut [u32], j: usize) -> State
    requires { Settles s j (length used.old) (length stop.old) }
    ensures { (a : Answer) → turn a result used.new stop.new ≡ settle a s used.old stop.old j }
{
    let b = state::block_at(s, j);
    if b.used != 0 {
        return s;
    }
    let q = state::pool_at(s, b.pool);
    if q.empty != 0 || s.immediate {
        slots::clear_slot(used, b.slot, s.w);
        slots::clear_slot(stop, b.slot, s.w);
        return table::remove::remove_block(s, j);
    }
    let mut r = s;
    r.pools[b.pool].empty = 1;
    r
}
