// The call release.
#![tactic(auto)]

ghost use Rattle.std.specs.Prelude.{◌≡◌, ◌-◌, ◌<◌, ◌≤◌, length, Ok};
ghost use Rattle.block.specs.Record.{SpanIn};
ghost use Rattle.block.specs.Marking.{mark_released};
ghost use Rattle.state.specs.declared.Answer.{Answer};
ghost use Rattle.state.specs.Table.{block_at};
ghost use Rattle.shape.specs.Shaped.{Shaped};
ghost use Rattle.machine.specs.Turn.{turn_of, turn, with_live};
ghost use Rattle.machine.specs.Release.{less_used, settle, release_held, release_turn};

use state::{Answer, Outcome, Refusal, State, UnitRange};

// Frees a span's units in block `j`: their bits, their counts, then their block if that is empty now.
fn free_units(s: State, used: &mut [u32], stop: &mut [u32], j: usize, units: UnitRange) -> State
    requires shaped { Shaped s (length used.old) (length stop.old) }
    requires stands { j < s.count }
    requires in_block { SpanIn (block_at s j) units.from units.to }
    requires counted { units.to - units.from ≤ (block_at s j).used }
    requires some_live { 0 < s.live }
    ensures { (a : Answer) → let from = units.from in
        let to = units.to in
        let marked = mark_released s.w (block_at s j) from to used.old stop.old in
        turn a result used.new stop.new ≡ settle a (with_live (less_used s j marked.block (to - from)) (s.live - 1)) marked.used marked.stop j }
{
    let b = state::block_at(s, j);
    let less = block::mark::mark_released_area(b, used, stop, s.w, units.from, units.to);
    let mut r = release_settle::less_used(s, j, less, units.to - units.from);
    r.live = s.live - 1;
    release_settle::settle(r, used, stop, j)
}

// As `free_units`, but refuses (6) if the span is longer than the used count or none is live.
fn release_span(
    s: State,
    used: &mut [u32],
    stop: &mut [u32],
    address: u64,
    j: usize,
    units: UnitRange,
) -> Outcome
    requires shaped { Shaped s (length used.old) (length stop.old) }
    requires stands { j < s.count }
    requires in_block { SpanIn (block_at s j) units.from units.to }
    ensures { turn_of result used.new stop.new
        ≡ release_held s used.old stop.old address j (Ok units) }
{
    let b = state::block_at(s, j);
    if b.used < units.to - units.from || s.live == 0 {
        return state::refused(s, Refusal::Damaged);
    }
    let span = spans::span_at(s, j, address, units.to - units.from);
    let state = free_units(s, used, stop, j, units);
    let answer = Answer::Released(span);
    Outcome { answer, state }
}

// Frees the span that starts at an address.
pub fn release(s: State, used: &mut [u32], stop: &mut [u32], address: u64) -> Outcome
    ensures { turn_of result used.new stop.new ≡ release_turn s used.old stop.old address }
{
    if !shape::shape_ok(s, used.len(), stop.len()) {
        return state::refused(s, Refusal::BadShape);
    }
    if address == 0 {
        return state::refused(s, Refusal::InvalidArgument);
    }
    let Some(j) = table::lookup_block(s, address) else {
        return state::refused(s, Refusal::InvalidState);
    };
    match spans::held_in(s, used, stop, j, address) {
        Err(why) => state::refused(s, why.into()),
        Ok(units) => release_span(s, used, stop, address, j, units),
    }
}
