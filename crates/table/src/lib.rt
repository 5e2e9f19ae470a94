// Searches the table: for the block at an address, the lowest free slot, the lowest place in the arena, the newest block of a pool.
// `insert` and `remove` change it.
#![tactic(auto)]

pub mod insert;
pub mod remove;

ghost use Rattle.std.specs.Prelude.{◌≡◌, ◌≤◌, ◌<◌, ◌^◌};
ghost use Rattle.sizes.specs.Limits.{slot_limit};
ghost use Rattle.state.specs.Find.{lookup, lowest_slot, newest_size, lowest_place};
ghost use Rattle.table.specs.Ordered.{Ordered, Slotted, TakenSlots, Arranged};

use state::State;

// Returns the size of the pool's newest block, or the base size if it has none. A new block's size starts from it.
pub fn newest_size(s: State, pool: usize) -> u64
    requires { s.count ≤ slot_limit }
    ensures { result ≡ newest_size s pool }
{
    s.blocks[..s.count]
        .iter()
        .rev()
        .find(|b| b.pool == pool)
        .map_or(s.size, |b| b.size)
}

// Finds the block that holds an address: of those that start at or before it, the last one by address, if it ends after it.
pub fn lookup_block(s: State, address: u64) -> Option<usize>
    requires { Ordered s }
    ensures { result ≡ lookup s address }
{
    let order = &s.order[..s.count];
    // `partition_point` asks for a test of any number, so this one minds the table's limit.
    let started = order.partition_point(|&i| i < state::SLOT_LIMIT && s.blocks[i].base <= address);
    let i = *order[..started].last()?;
    let b = s.blocks[i];
    if address - b.base < b.size {
        Some(i)
    } else {
        None
    }
}

// Returns which slots the blocks have.
fn taken_slots(s: &State) -> [bool; state::SLOT_LIMIT]
    requires { Slotted s.now }
    ensures { TakenSlots s.now s.now.count result }
{
    let mut taken = [false; state::SLOT_LIMIT];
    for b in &s.blocks[..s.count] {
        taken[b.slot] = true;
    }
    taken
}

// Finds the lowest slot that no block has.
pub fn lowest_free_slot(s: State) -> Option<usize>
    requires { Slotted s }
    ensures { result ≡ lowest_slot s }
{
    let taken = taken_slots(&s);
    taken[..s.slots].iter().position(|&taken| !taken)
}

// Finds the lowest multiple of 65,536 in the arena where a block of `size` bytes fits: before the first block, in the first gap between
// blocks that holds it, or after the last one.
pub fn lowest_place(s: State, size: u64) -> Option<u64>
    requires { Arranged s × (0 < size) × (size < 2 ^ 32) }
    ensures { result ≡ lowest_place s size }
{
    let mut at = s.arena;
    for &i in &s.order[..s.count] {
        let b = s.blocks[i];
        if at + size <= b.base {
            return Some(at);
        }
        at = numbers::align_up(b.base + b.size, sizes::PAGE);
    }
    if at + size <= s.arena + s.length {
        return Some(at);
    }
    None
}
