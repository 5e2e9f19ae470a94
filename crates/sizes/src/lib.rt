// Rounds a request's size, finds its pool, and sizes a new block.
#![tactic(auto)]

pub mod limits;

ghost use Rattle.std.specs.Prelude.{◌≡◌, true, ◌⊎◌, ◌^◌, ◌<◌, ◌≤◌};
ghost use Rattle.sizes.specs.Limits.{is_granularity};
ghost use Rattle.sizes.specs.Pools.{fresh_pool, pool_of};
ghost use Rattle.sizes.specs.Sizes.{number, rounded, ideal_size};

// The arena's base and length and every block's base are multiples of it: the system's page granularity in the Rust.
pub const PAGE: u64 = 64 * 1024;

pub const MAX_BLOCK_SIZE: u64 = 32 * 1024 * 1024;

// The Rust's `u32::MAX / 2`.
pub const MAX_SIZE: u64 = 2_147_483_647;

// ---- pools

// A pool: its unit, how many blocks it has, how many of them are empty, and the sums of their areas and of their used units.
// `JitAllocatorPool` in the Rust.
#[derive(Clone, Copy, PartialEq, Eq, Default)]
pub struct Pool {
    pub granularity: u64,
    pub blocks: u32,
    pub empty: u32,
    pub area: u32,
    pub used: u32,
}

impl Pool {
    pub fn new(granularity: u64) -> Pool
        ensures { result ≡ fresh_pool granularity }
    {
        Pool {
            granularity,
            ..Pool::default()
        }
    }
}

// Returns the highest pool whose step divides the size. Pool 0 takes what is left.
pub fn size_to_pool_id(size: u64, granularity: u64, poolcount: usize) -> usize
    requires { (size < 2 ^ 32) × (is_granularity granularity ≡ true) × ((poolcount ≡ 1) ⊎ (poolcount ≡ 3)) }
    ensures { result ≡ pool_of size granularity poolcount }
{
    for id in (1..poolcount).rev() {
        if numbers::align_up(size, granularity << id) == size {
            return id;
        }
    }
    0
}

// ---- a request, and a new block for it

// Why a request's size is refused, with document 01's numbers.
#[derive(Clone, Copy, PartialEq, Eq)]
pub enum SizeError {
    InvalidArgument = 1,
    TooLarge = 2,
}

impl From<SizeError> for u64 {
    ghost from_gives = { λ why n. n ≡ number why };

    fn from(why: SizeError) -> u64 {
        why as u64
    }
}

// Rounds a size up to the granularity, or refuses it. It rounds first: a size that wraps becomes 0, and is refused as 0 is.
#[tactic(auto, unfolding(crate::specs::Sizes::rounded))]
pub fn round_size(size: u64, granularity: u64) -> Result<u64, SizeError>
    requires { 0 < granularity }
    ensures { result ≡ rounded size granularity }
{
    let rounded = numbers::align_up(size, granularity);
    if rounded == 0 {
        return Err(SizeError::InvalidArgument);
    }
    if rounded > MAX_SIZE {
        return Err(SizeError::TooLarge);
    }
    Ok(rounded)
}

// Returns the size of a new block. `newest` is the size of the pool's newest block, or the base size if it has none. The Rust answers 0 if
// the rounding wraps: that branch is dead, since within these bounds the answer is never below the request (`ideal_holds`).
#[tactic(auto, unfolding(crate::specs::Sizes::ideal_size))]
pub fn calculate_ideal_block_size(newest: u64, size: u64) -> u64
    requires { (0 < newest) × (newest ≤ 2 ^ 27) × (size < 2 ^ 32) }
    ensures { result ≡ ideal_size newest size }
{
    let ideal = if newest < MAX_BLOCK_SIZE {
        newest * 2
    } else {
        newest
    };
    if size > ideal {
        numbers::align_up(size, ideal)
    } else {
        ideal
    }
}
