// Marks, frees and shortens a span in a block's slot of both maps, and updates the block's record.
ghost use Rattle.std.specs.Prelude.{◌≡◌, ◌+◌, ◌-◌, ◌*◌, ◌^◌, ◌<◌, ◌≤◌, length};
ghost use Rattle.slots.specs.Slots.{fill_slot};
ghost use Rattle.block.specs.Record.{Placed, SpanIn};
ghost use Rattle.block.specs.Marking.{painted, mark_allocated, mark_released, mark_shrunk};

use crate::Block;

// Marks the units from `from` up to `to` as a span: sets their used bits, and the stop bit of the last one.
pub fn mark_allocated_area(
    b: Block,
    used: &mut [u32],
    stop: &mut [u32],
    w: usize,
    from: u32,
    to: u32,
) -> Block
    requires { Placed b w (length used.old) (length stop.old) × SpanIn b from to × (b.used + (to - from) ≤ b.area) }
    ensures { painted result used.new stop.new ≡ mark_allocated w b from to used.old stop.old }
{
    let slot = b.slot;
    slots::mark(used, slot, w, from as usize, (to - from) as usize);
    slots::mark(stop, slot, w, (to - 1) as usize, 1);
    b.marked(from, to)
}

// Frees the units from `from` up to `to` of a slot: clears their used bits, and the stop bit of the last one.
fn unmark_area(used: &mut [u32], stop: &mut [u32], slot: usize, w: usize, from: u32, to: u32)
    requires { ((slot + 1) * w ≤ length used.old) × ((slot + 1) * w ≤ length stop.old) × (from < to) × (to ≤ 32 * w) × (w < 2 ^ 32) }
    ensures { (used.new ≡ fill_slot w slot used.old from (to - from) 0) × (stop.new ≡ fill_slot w slot stop.old (to - 1) 1 0) }
{
    slots::unmark(used, slot, w, from as usize, (to - from) as usize);
    slots::unmark(stop, slot, w, (to - 1) as usize, 1);
}

// Frees the span from `from` up to `to`.
pub fn mark_released_area(
    b: Block,
    used: &mut [u32],
    stop: &mut [u32],
    w: usize,
    from: u32,
    to: u32,
) -> Block
    requires { Placed b w (length used.old) (length stop.old) × SpanIn b from to × (to - from ≤ b.used) }
    ensures { painted result used.new stop.new ≡ mark_released w b from to used.old stop.old }
{
    unmark_area(used, stop, b.slot, w, from, to);
    b.released(from, to)
}

// Frees the tail from `from` up to `to` of a span, and sets the stop bit of the span's new last unit.
pub fn mark_shrunk_area(
    b: Block,
    used: &mut [u32],
    stop: &mut [u32],
    w: usize,
    from: u32,
    to: u32,
) -> Block
    requires { Placed b w (length used.old) (length stop.old) × SpanIn b from to × (to - from ≤ b.used) × (0 < from) }
    ensures { painted result used.new stop.new ≡ mark_shrunk w b from to used.old stop.old }
{
    unmark_area(used, stop, b.slot, w, from, to);
    slots::mark(stop, b.slot, w, (from - 1) as usize, 1);
    b.shrunk(from, to)
}
