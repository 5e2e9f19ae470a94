// The call shrink.
#![tactic(auto)]

pub mod cut;

ghost use Rattle.std.specs.Prelude.{◌≡◌};
ghost use Rattle.machine.specs.Turn.{turn_of};
ghost use Rattle.machine.specs.Shrink.{shrink_turn};

use state::{Outcome, Refusal, State};

// Shortens the span that starts at an address to the units that `size` bytes take; a size of 0 releases it.
pub fn shrink(s: State, used: &mut [u32], stop: &mut [u32], address: u64, size: u64) -> Outcome
    ensures { turn_of result used.new stop.new ≡ shrink_turn s used.old stop.old address size }
{
    if size == 0 {
        return release::release(s, used, stop, address);
    }
    if !shape::shape_ok(s, used.len(), stop.len()) {
        return state::refused(s, Refusal::BadShape);
    }
    if address == 0 {
        return state::refused(s, Refusal::InvalidArgument);
    }
    let Some(j) = table::lookup_block(s, address) else {
        return state::refused(s, Refusal::InvalidArgument);
    };
    match spans::held_in(s, used, stop, j, address) {
        Err(why) => state::refused(s, why.into()),
        Ok(units) => {
            let b = state::block_at(s, j);
            if b.used < units.to - units.from {
                return state::refused(s, Refusal::Damaged);
            }
            cut::shrink_span(s, used, stop, address, size, j, units)
        }
    }
}
