// Tests a whole record for refusal 5, BadShape. The definition compares every two blocks; the code walks the blocks once by age and once
// by address. Whatever the record holds, no sum wraps and no index is out of range.
#![tactic(auto)]

pub mod blocks;
pub mod creation;
pub mod pools;

ghost use Rattle.std.specs.Prelude.{◌≡◌, ◌≤◌};
ghost use Rattle.sizes.specs.Limits.{slot_limit};
ghost use Rattle.state.specs.Table.{all};
ghost use Rattle.state.specs.Shape.{good_shape, zero_ok};
ghost use Rattle.shape.specs.Parts.{table_ok, layout_ok};
ghost use Rattle.shape.specs.Facts.{Headed, Laid};

use sizes::Pool;
use state::State;

// Tests each block by age, the pools' records against the blocks, and that the live count is at most the used units.
pub fn table_ok(s: &State) -> bool
    requires { Headed s.now }
    ensures { result ≡ table_ok s.now }
{
    let mut seen = [false; state::SLOT_LIMIT];
    let mut sums = [Pool::new(s.granularity); 3];
    let mut used = 0;
    for b in &s.blocks[..s.count] {
        if !blocks::block_ok(b, s) || seen[b.slot] {
            return false;
        }
        seen[b.slot] = true;
        sums[b.pool] = pools::count_in(sums[b.pool], *b);
        used += u64::from(b.used);
    }
    pools::pools_match(s.pools, sums, s.immediate) && s.live <= used
}

// True if both lists have only zeros after the last block.
fn zeros_ok(s: &State) -> bool
    requires { s.now.count ≤ slot_limit }
    ensures { result ≡ all slot_limit (zero_ok s.now) }
{
    s.blocks[s.count..].iter().all(blocks::is_zero)
        && s.order[s.count..].iter().all(|age| *age == 0)
}

// Tests the address order, and the zeros after the last block. Each block starts at or after the end of the one before: so the blocks rise,
// share no byte, and none comes twice.
fn layout_ok(s: &State) -> bool
    requires { Laid s.now }
    ensures { result ≡ layout_ok s.now }
{
    let mut end = 0;
    for age in &s.order[..s.count] {
        if *age >= s.count {
            return false;
        }
        let b = s.blocks[*age];
        if b.base < end {
            return false;
        }
        end = b.base + b.size;
    }
    zeros_ok(s)
}

// True if the record is not BadShape. `used` and `stop` are the lengths of the two slices.
#[tactic(auto, using(crate::proofs::Whole::parts))]
pub fn shape_ok(s: State, used: usize, stop: usize) -> bool
    ensures { result ≡ good_shape s used stop }
{
    creation::head_ok(&s, used, stop) && table_ok(&s) && layout_ok(&s)
}
