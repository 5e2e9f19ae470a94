// One block's record, and how marking changes it. `JitAllocatorBlock` in the Rust.
#![tactic(auto)]

pub mod look;
pub mod mark;

ghost use Rattle.std.specs.Prelude.{◌≡◌, ◌+◌, ◌-◌, ◌<◌, ◌≤◌};
ghost use Rattle.block.specs.Record.{SpanIn, empty_flag, is_on};
ghost use Rattle.block.specs.Marking.{moved, marked, released, emptied, shrunk, fresh};

// A block of `area` units from address `base` on. Its bits are in slot `slot` of both maps. `start` and `end` are its search window,
// and `largest` is the longest free run that a search has seen.
#[derive(Clone, Copy, PartialEq, Eq, Default)]
pub struct Block {
    pub base: u64,
    pub size: u64,
    pub pool: usize,
    pub slot: usize,
    pub flags: u32,
    pub area: u32,
    pub used: u32,
    pub start: u32,
    pub end: u32,
    pub largest: u32,
}

impl Block {
    // No unit is used.
    pub const FLAG_EMPTY: u32 = 1;
    // `largest` may be out of date.
    pub const FLAG_DIRTY: u32 = 2;

    // True if the flag says that no unit is used.
    pub fn is_empty(&self) -> bool
        ensures { result ≡ is_on self.now.flags empty_flag }
    {
        self.flags & Block::FLAG_EMPTY != 0
    }

    // Updates the record after the units from `from` up to `to` became a span.
    pub fn marked(self, from: u32, to: u32) -> Block
        requires { SpanIn self from to × (self.used + (to - from) ≤ self.area) }
        ensures { result ≡ marked self from to }
    {
        let flags = self.flags & !Block::FLAG_EMPTY;
        let used = self.used + (to - from);
        if used == self.area {
            return Block {
                used,
                start: self.area,
                end: 0,
                largest: 0,
                flags: flags & !Block::FLAG_DIRTY,
                ..self
            };
        }
        let start = moved_edge(self.start, from, to);
        let end = moved_edge(self.end, to, from);
        Block {
            used,
            start,
            end,
            flags: flags | Block::FLAG_DIRTY,
            ..self
        }
    }

    // Updates the record after the span from `from` up to `to` was freed.
    pub fn released(self, from: u32, to: u32) -> Block
        requires { SpanIn self from to × (to - from ≤ self.used) }
        ensures { result ≡ released self from to }
    {
        let used = self.used - (to - from);
        if used == 0 {
            return self.emptied();
        }
        self.shrunk(from, to)
    }

    // Makes the record as it is with no unit used.
    pub fn emptied(self) -> Block
        ensures { result ≡ emptied self }
    {
        Block {
            used: 0,
            start: 0,
            end: self.area,
            largest: self.area,
            flags: (self.flags | Block::FLAG_EMPTY) & !Block::FLAG_DIRTY,
            ..self
        }
    }

    // Updates the record after the tail from `from` up to `to` of a span was freed.
    pub fn shrunk(self, from: u32, to: u32) -> Block
        requires { SpanIn self from to × (to - from ≤ self.used) }
        ensures { result ≡ shrunk self from to }
    {
        Block {
            used: self.used - (to - from),
            start: self.start.min(from),
            end: self.end.max(to),
            flags: self.flags | Block::FLAG_DIRTY,
            ..self
        }
    }
}

// Moves a window's edge that equals the span's edge `own` to the span's `other` edge; leaves any other edge.
#[tactic(auto, unfolding(crate::specs::Marking::moved))]
fn moved_edge(edge: u32, own: u32, other: u32) -> u32
    ensures { result ≡ moved edge own other }
{
    if edge == own { other } else { edge }
}

// Makes the record of a new block that gets a span of `n` units at unit 0, before that span is marked.
pub fn new_block(base: u64, size: u64, pool: usize, slot: usize, area: u32, n: u32) -> Block
    requires { n ≤ area }
    ensures { result ≡ fresh base size pool slot area n }
{
    Block {
        base,
        size,
        pool,
        slot,
        flags: 0,
        area,
        used: 0,
        start: n,
        end: area,
        largest: area - n,
    }
}
