// The calls soft reset and hard reset.
#![tactic(auto)]

pub mod keep;

ghost use Rattle.std.specs.Prelude.{◌≡◌, true, false, length};
ghost use Rattle.machine.specs.Turn.{turn_of};
ghost use Rattle.machine.specs.Reset.{clear_blocks, reset_turn};
ghost use Rattle.reset.specs.Clearable.{Clearable};

use state::{Answer, Outcome, Refusal, State};

// Clears the slots of all blocks in one map. It writes no word of another slot.
#[tactic(auto, using(crate::proofs::Walk::clearing))]
fn clear_blocks(s: State, words: &mut [u32])
    requires { Clearable s (length words.old) }
    ensures { words.new ≡ clear_blocks s s.count words.old }
{
    for b in &s.blocks[..s.count] {
        slots::clear_slot(words, b.slot, s.w);
    }
}

// Refuses a bad shape; else clears the slots of all blocks, and leaves the table of a hard or a soft reset. Inlined, since as a function of
// its own it clears room for two records before the shape test: a refusal then takes twice as long.
#[tactic(auto, using(crate::proofs::Ready::ready), unfolding(machine::specs::Reset::reset_turn))]
#[inline(always)]
fn reset(s: State, used: &mut [u32], stop: &mut [u32], hard: bool) -> Outcome
    ensures { turn_of result used.new stop.new ≡ reset_turn s used.old stop.old hard }
{
    if !shape::shape_ok(s, used.len(), stop.len()) {
        return state::refused(s, Refusal::BadShape);
    }
    clear_blocks(s, used);
    clear_blocks(s, stop);
    Outcome {
        answer: Answer::Reset,
        state: keep::left_table(s, hard),
    }
}

// Removes all blocks.
pub fn hard_reset(s: State, used: &mut [u32], stop: &mut [u32]) -> Outcome
    ensures { turn_of result used.new stop.new ≡ reset_turn s used.old stop.old true }
{
    reset(s, used, stop, true)
}

// Removes all blocks but each pool's oldest, which it empties; under immediate release, all blocks.
pub fn soft_reset(s: State, used: &mut [u32], stop: &mut [u32]) -> Outcome
    ensures { turn_of result used.new stop.new ≡ reset_turn s used.old stop.old false }
{
    reset(s, used, stop, false)
}
