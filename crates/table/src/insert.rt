// Enters a block into the table. `insert_block` in the Rust, with two arrays in place of the list and the tree.
ghost use Rattle.std.specs.Prelude.{◌≡◌, ◌≤◌, ◌<◌, length, take};
ghost use Rattle.std.specs.List.{All};
ghost use Rattle.sizes.specs.Limits.{slot_limit};
ghost use Rattle.table.specs.Changeable.{Insertable};
ghost use Rattle.state.specs.Change.{list_from, moved_up, place_of, inserted};

use block::Block;
use state::State;

// Puts `age` at `place` into a list of ages: those from there on move up by one place, and the last one goes.
fn put_age(order: &mut [usize], place: usize, age: usize)
    requires in_list { place < length order.old }
    ensures { order.new ≡ list_from 0 (length order.old) (moved_up order.old place age) }
{
    let last = order.len() - 1;
    order.copy_within(place..last, place + 1);
    order[place] = age;
}

// Returns a new block's place in the address order: before the first block of higher base.
fn place_of(s: &State, b: &Block) -> usize
    requires few { s.now.count ≤ slot_limit }
    requires ages_in_table { All (λ age. age < slot_limit) (take s.now.count s.now.order) }
    ensures { result ≡ place_of s.now b.now }
{
    s.order[..s.count]
        .iter()
        .position(|age| b.base < s.blocks[*age].base)
        .unwrap_or(s.count)
}

// Enters a block as the newest.
pub fn insert_block(s: State, b: Block) -> State
    requires { Insertable s b }
    ensures { result ≡ inserted s b }
{
    let place = place_of(&s, &b);
    let mut r = s;
    put_age(&mut r.order, place, s.count);
    r.blocks[s.count] = b;
    let pool = &mut r.pools[b.pool];
    pool.blocks += 1;
    pool.area += b.area;
    r.count += 1;
    r
}
