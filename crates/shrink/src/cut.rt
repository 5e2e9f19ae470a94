// Cuts a span's tail off.
ghost use Rattle.std.specs.Prelude.{◌≡◌, ◌-◌, ◌*◌, ◌^◌, ◌<◌, ◌≤◌, length};
ghost use Rattle.numbers.specs.Units.{units_of};
ghost use Rattle.block.specs.Record.{SpanIn};
ghost use Rattle.block.specs.Marking.{mark_shrunk};
ghost use Rattle.state.specs.declared.Answer.{Answer};
ghost use Rattle.state.specs.InTable.{InTable};
ghost use Rattle.state.specs.Table.{block_at};
ghost use Rattle.shape.specs.Shaped.{Shaped};
ghost use Rattle.machine.specs.Turn.{turn_of, turn, unit_of};
ghost use Rattle.machine.specs.Release.{less_used};
ghost use Rattle.machine.specs.Shrink.{shrink_units};

use state::{Answer, Outcome, Refusal, State, UnitRange};

// Frees the tail of a span of block `j`.
fn cut_off(s: State, used: &mut [u32], stop: &mut [u32], j: usize, tail: UnitRange) -> State
    requires shaped { Shaped s (length used.old) (length stop.old) }
    requires stands { j < s.count }
    requires in_block { SpanIn (block_at s j) tail.from tail.to }
    requires counted { tail.to - tail.from ≤ (block_at s j).used }
    requires follows_a_unit { 0 < tail.from }
    ensures { (a : Answer) → let from = tail.from in
        let to = tail.to in
        let marked = mark_shrunk s.w (block_at s j) from to used.old stop.old in
        turn a result used.new stop.new ≡ turn a (less_used s j marked.block (to - from)) marked.used marked.stop }
{
    let b = state::block_at(s, j);
    let less = block::mark::mark_shrunk_area(b, used, stop, s.w, tail.from, tail.to);
    release_settle::less_used(s, j, less, tail.to - tail.from)
}

// Returns how many units of block `j` hold `size` bytes.
fn units_for(s: State, j: usize, size: u64) -> u32
    requires in_table { InTable s j }
    requires has_bytes { 0 < unit_of s (block_at s j) }
    requires few_units { size ≤ (2 ^ 32 - 1) * unit_of s (block_at s j) }
    ensures { result ≡ units_of size (unit_of s (block_at s j)) }
{
    let b = state::block_at(s, j);
    let q = state::pool_at(s, b.pool);
    numbers::area_size_from_byte_size(size, q.granularity)
}

// Shortens a span to `size` bytes. It compares the sizes in bytes, since a large `size` may not fit into a number of units.
pub fn shrink_span(
    s: State,
    used: &mut [u32],
    stop: &mut [u32],
    address: u64,
    size: u64,
    j: usize,
    units: UnitRange,
) -> Outcome
    requires shaped { Shaped s (length used.old) (length stop.old) }
    requires stands { j < s.count }
    requires in_block { SpanIn (block_at s j) units.from units.to }
    requires counted { units.to - units.from ≤ (block_at s j).used }
    requires keeps_some { 0 < size }
    ensures { turn_of result used.new stop.new
        ≡ shrink_units s used.old stop.old address j units.from units.to (units_of size (unit_of s (block_at s j))) }
{
    let whole = spans::span_at(s, j, address, units.to - units.from);
    if whole.size < size {
        return state::refused(s, Refusal::InvalidState);
    }
    let n = units_for(s, j, size);
    let kept = spans::span_at(s, j, address, n);
    let answer = Answer::Shrunk(kept);
    if n == units.to - units.from {
        return Outcome { answer, state: s };
    }
    let tail = UnitRange {
        from: units.from + n,
        ..units
    };
    let state = cut_off(s, used, stop, j, tail);
    Outcome { answer, state }
}
