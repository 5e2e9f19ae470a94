// Makes a span from its address and units, and finds out whether a span starts at an address and where it ends.
#![tactic(auto)]

ghost use Rattle.std.specs.Prelude.{◌≡◌, ◌*◌, ◌^◌, ◌<◌, ◌+◌, ◌-◌, ◌%◌, ◌≤◌, length};
ghost use Rattle.numbers.specs.Units.{bytes_of};
ghost use Rattle.state.specs.InTable.{InTable};
ghost use Rattle.state.specs.Table.{block_at};
ghost use Rattle.machine.specs.Turn.{span, unit_of};
ghost use Rattle.block.specs.Record.{Placed};
ghost use Rattle.machine.specs.Span.{starts, held_at, held_of, held_in};
ghost use Rattle.spans.specs.AddressIn.{AddressIn};

use block::Block;
use state::{NotHeld, Span, State, UnitRange};

// Makes the span of `n` units at an address of block `j`.
pub fn span_at(s: State, j: usize, address: u64, n: u32) -> Span
    requires { InTable s j × (n * unit_of s (block_at s j) < 2 ^ 64) }
    ensures { result ≡ span address (bytes_of n (unit_of s (block_at s j))) }
{
    let b = state::block_at(s, j);
    let q = state::pool_at(s, b.pool);
    let size = numbers::byte_size_from_area_size(n, q.granularity);
    Span { address, size }
}

// True if a span starts at the unit: it is used, and is unit 0 or follows a free unit or a stop bit.
fn is_start(used: &[u32], stop: &[u32], unit: usize) -> bool
    requires { (unit < 32 * length used.now) × (unit < 32 * length stop.now) }
    ensures { result ≡ starts used.now stop.now unit }
{
    bits::bit_vector_get_bit(used, unit)
        && (unit == 0
            || !bits::bit_vector_get_bit(used, unit - 1)
            || bits::bit_vector_get_bit(stop, unit - 1))
}

// Finds the span that starts at a unit of a block, given the block's words.
fn held_at(used: &[u32], stop: &[u32], area: u32, unit: u32) -> Result<UnitRange, NotHeld>
    requires { (unit < area) × (area ≤ 32 * length used.now) × (area ≤ 32 * length stop.now) × (length stop.now < 2 ^ 32) }
    ensures { result ≡ held_at used.now stop.now area unit }
{
    let at = unit as usize;
    if !is_start(used, stop, at) {
        return Err(NotHeld::NoSpan);
    }
    let last = bits::index::bit_vector_index_of(stop, at, true);
    if (area as usize) <= last {
        return Err(NotHeld::NoStop);
    }
    Ok(UnitRange {
        from: unit,
        to: last as u32 + 1,
    })
}

// Finds the span that starts at an address of a block whose units have `unit` bytes.
fn held_of(
    b: Block,
    used: &[u32],
    stop: &[u32],
    w: usize,
    unit: u64,
    address: u64,
) -> Result<UnitRange, NotHeld>
    requires { Placed b w (length used.now) (length stop.now) × AddressIn b unit address }
    ensures { result ≡ held_of w b unit used.now stop.now address }
{
    let offset = address - b.base;
    if offset % unit != 0 {
        return Err(NotHeld::NoSpan);
    }
    let at = numbers::area_size_from_byte_size(offset, unit);
    let slot = b.slot;
    let mine = slots::slot(used, slot, w);
    let ends = slots::slot(stop, slot, w);
    held_at(mine, ends, b.area, at)
}

// Finds the span that starts at an address of the block of age `j`.
pub fn held_in(
    s: State,
    used: &[u32],
    stop: &[u32],
    j: usize,
    address: u64,
) -> Result<UnitRange, NotHeld>
    requires { InTable s j × Placed (block_at s j) s.w (length used.now) (length stop.now) × AddressIn (block_at s j) (unit_of s (block_at s j)) address }
    ensures { result ≡ held_in s used.now stop.now address j }
{
    let b = state::block_at(s, j);
    let q = state::pool_at(s, b.pool);
    held_of(b, used, stop, s.w, q.granularity, address)
}
