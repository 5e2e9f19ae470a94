// Makes the table that a reset leaves: no block, or each pool's oldest one, emptied.
ghost use Rattle.std.specs.Prelude.{◌≡◌, ◌||◌};
ghost use Rattle.numbers.specs.Pick.{pick};
ghost use Rattle.block.specs.Marking.{emptied};
ghost use Rattle.table.specs.Changeable.{Insertable};
ghost use Rattle.machine.specs.Reset.{empty_table, keep, kept};
ghost use Rattle.reset.specs.Keepable.{Keepable};

use block::Block;
use sizes::Pool;
use state::State;

// Removes all blocks from the record.
pub fn empty_table(s: State) -> State
    ensures { result ≡ empty_table s }
{
    State {
        live: 0,
        count: 0,
        blocks: [Block::default(); state::SLOT_LIMIT],
        order: [0; state::SLOT_LIMIT],
        pools: [Pool::new(s.granularity); 3],
        ..s
    }
}

// Enters a block, emptied, into a table as its pool's one empty block.
fn keep_block(r: State, b: Block) -> State
    requires { Insertable r (emptied b) }
    ensures { result ≡ keep r b }
{
    let mut x = table::insert::insert_block(r, b.emptied());
    x.pools[b.pool].empty = 1;
    x
}

// Keeps each pool's oldest block, and no other. `seen[p]`: pool p's oldest block was kept.
fn keep_oldest(s: State) -> State
    requires { Keepable s }
    ensures { result ≡ kept s s.count }
{
    let mut r = empty_table(s);
    let mut seen = [false; 3];
    for b in &s.blocks[..s.count] {
        if !seen[b.pool] {
            seen[b.pool] = true;
            r = keep_block(r, *b);
        }
    }
    r
}

// Makes the table that a reset leaves: no block if it is hard or under immediate release, else each pool's oldest one.
pub fn left_table(s: State, hard: bool) -> State
    requires { Keepable s }
    ensures { result ≡ pick (hard || s.immediate) (empty_table s) (kept s s.count) }
{
    if hard || s.immediate {
        return empty_table(s);
    }
    keep_oldest(s)
}
