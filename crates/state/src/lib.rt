// The allocator's record: what creation fixed, the blocks by age, their ages by address, and the pools.
#![tactic(auto)]

ghost use Rattle.std.specs.Prelude.{◌≡◌, ◌<◌};
ghost use Rattle.sizes.specs.Limits.{slot_limit};
ghost use Rattle.state.specs.Table.{zero_block, zero_state, block_at, pool_at};
ghost use Rattle.state.specs.Outcome.{refusal, size_refusal, number};
ghost use Rattle.state.specs.Held.{span_refusal};

use block::Block;
use sizes::{Pool, SizeError};

// The most blocks that the table holds, and so the most slots.
pub const SLOT_LIMIT: usize = 64;

// The most words to a slot.
pub const MAX_SLOT_WORDS: usize = 16384;

#[derive(Clone, Copy)]
pub struct State {
    // in force: the base block size, the granularity, the number of pools, and immediate release (no empty block is kept)
    pub size: u64,
    pub granularity: u64,
    pub poolcount: usize,
    pub immediate: bool,
    // words per slot (W), and slots
    pub w: usize,
    pub slots: usize,
    // where the arena starts, and its length
    pub arena: u64,
    pub length: u64,
    // how many spans are live, and how many blocks there are
    pub live: u64,
    pub count: usize,
    // the blocks, oldest first; `order` has their ages by rising base. After the last block both have zeros.
    pub blocks: [Block; SLOT_LIMIT],
    pub order: [usize; SLOT_LIMIT],
    pub pools: [Pool; 3],
}

// Makes the block of zeros that stands behind the last block of the table.
pub fn zero_block() -> Block
    ensures { result ≡ zero_block }
{
    Block::default()
}

// Makes the record of zeros that a refused creation returns.
pub fn zero_state() -> State
    ensures { result ≡ zero_state }
{
    State {
        size: 0,
        granularity: 0,
        poolcount: 0,
        immediate: false,
        w: 0,
        slots: 0,
        arena: 0,
        length: 0,
        live: 0,
        count: 0,
        blocks: [Block::default(); SLOT_LIMIT],
        order: [0; SLOT_LIMIT],
        pools: [Pool::default(); 3],
    }
}

// What a creation asks for. Of the flags bit 0 asks for three pools and bit 1 for immediate release; the others are ignored.
#[derive(Clone, Copy)]
pub struct Asked {
    pub size: u32,
    pub granularity: u32,
    pub flags: u32,
    pub w: u32,
    pub arena: u64,
    pub length: u64,
}

// A piece of memory: its address, and its size in bytes.
#[derive(Clone, Copy)]
pub struct Span {
    pub address: u64,
    pub size: u64,
}

// Document 01's refusals by their numbers; a trace's own, 7, is not among them.
#[derive(Clone, Copy, PartialEq, Eq)]
pub enum Refusal {
    InvalidArgument = 1,
    TooLarge = 2,
    InvalidState = 3,
    NoMapping = 4,
    BadShape = 5,
    Damaged = 6,
}

impl From<Refusal> for u64 {
    ghost from_gives = { λ why n. n ≡ number why };

    fn from(why: Refusal) -> u64 {
        why as u64
    }
}

impl From<SizeError> for Refusal {
    ghost from_gives = { λ why r. r ≡ size_refusal why };

    fn from(why: SizeError) -> Refusal {
        match why {
            SizeError::InvalidArgument => Refusal::InvalidArgument,
            SizeError::TooLarge => Refusal::TooLarge,
        }
    }
}

// What a call answers. `Created` has the base size, the granularity and the number of pools in force.
#[derive(Clone, Copy)]
pub enum Answer {
    Created(u64, u64, usize),
    Granted(Span),
    Released(Span),
    Shrunk(Span),
    Shown(Span),
    Reset,
    Refused(Refusal),
}

// Units of a block, from the first one up to the end.
#[derive(Clone, Copy)]
pub struct UnitRange {
    pub from: u32,
    pub to: u32,
}

// Why an address of a block holds no span: none starts there, or the one that does has no stop bit.
#[derive(Clone, Copy, PartialEq, Eq)]
pub enum NotHeld {
    NoSpan,
    NoStop,
}

impl From<NotHeld> for Refusal {
    ghost from_gives = { λ why r. r ≡ span_refusal why };

    fn from(why: NotHeld) -> Refusal {
        match why {
            NotHeld::NoSpan => Refusal::InvalidArgument,
            NotHeld::NoStop => Refusal::Damaged,
        }
    }
}

// A place that a search of a pool found: a block's age and a unit in it.
#[derive(Clone, Copy)]
pub struct Hit {
    pub age: usize,
    pub unit: u32,
}

// The result of a search of a pool: the place, if there is one, and the record with the windows that the search tightened.
#[derive(Clone, Copy)]
pub struct Searched {
    pub hit: Option<Hit>,
    pub state: State,
}

// What a call returns; it writes the two maps in place.
#[derive(Clone, Copy)]
pub struct Outcome {
    pub answer: Answer,
    pub state: State,
}

// Refuses, and changes nothing.
pub fn refused(s: State, why: Refusal) -> Outcome
    ensures { result ≡ refusal s why }
{
    Outcome {
        answer: Answer::Refused(why),
        state: s,
    }
}

// ---- the table by its entries

// Returns the block of age `j`.
pub fn block_at(s: State, j: usize) -> Block
    requires { j < slot_limit }
    ensures { result ≡ block_at s j }
{
    s.blocks[j]
}

pub fn pool_at(s: State, p: usize) -> Pool
    requires { p < 3 }
    ensures { result ≡ pool_at s p }
{
    s.pools[p]
}
