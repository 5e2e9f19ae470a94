// Removes a block from the table. `remove_block` in the Rust, with two arrays in place of the list and the tree.
ghost use Rattle.std.specs.Prelude.{◌≡◌, ◌≤◌, ◌<◌, length, get_or, map};
ghost use Rattle.sizes.specs.Limits.{slot_limit};
ghost use Rattle.table.specs.Changeable.{Removable};
ghost use Rattle.state.specs.Change.{list_from, past, fallen, place_of_age, removed};

use block::Block;
use state::State;

// Returns the place of an age in the address order.
fn place_of_age(s: &State, age: usize) -> usize
    requires { s.now.count ≤ slot_limit }
    ensures { result ≡ place_of_age s.now age }
{
    s.order[..s.count]
        .iter()
        .position(|other| *other == age)
        .unwrap_or(s.count)
}

// Takes the entry at `place` out of a list: those after it move down by one place, and `zero` fills the last.
fn take_out<T: Copy>(list: &mut [T], place: usize, zero: T)
    requires in_list { place < length list.old }
    ensures { list.new ≡ list_from 0 (length list.old) (λ k. get_or list.old (past place k) zero) }
{
    let last = list.len() - 1;
    list.copy_within(place + 1.., place);
    list[last] = zero;
}

// Returns what becomes of an age when the block of age `i` leaves.
fn fallen_age(i: usize, age: usize) -> usize
    ensures { result ≡ fallen i age }
{
    if i < age { age - 1 } else { age }
}

// Lowers each age that is later than `i` by one.
fn lower_ages(order: &mut [usize], i: usize)
    ensures { order.new ≡ map (fallen i) order.old }
{
    for age in order.iter_mut() {
        *age = fallen_age(i, *age);
    }
}

// Removes the block of age `i` from the table: later ages fall by one.
pub fn remove_block(s: State, i: usize) -> State
    requires { Removable s i }
    ensures { result ≡ removed s i }
{
    let b = s.blocks[i];
    let place = place_of_age(&s, i);
    let mut r = s;
    take_out(&mut r.blocks, i, Block::default());
    take_out(&mut r.order, place, 0);
    lower_ages(&mut r.order, i);
    let pool = &mut r.pools[b.pool];
    pool.blocks -= 1;
    pool.area -= b.area;
    r.count -= 1;
    r
}
