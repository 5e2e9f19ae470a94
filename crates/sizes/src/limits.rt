// Tests and picks the sizes and granularities that creation accepts.
ghost use Rattle.std.specs.Prelude.{◌≡◌, ◌<◌};
ghost use Rattle.sizes.specs.Limits.{is_granularity, granularity_in_force, is_base_size, base_size_in_force};

pub const MIN_GRANULARITY: u64 = 64;

pub const MIN_BLOCK_SIZE: u64 = 64 * 1024;

#[tactic(auto, unfolding(crate::specs::Limits::is_granularity))]
pub fn is_granularity(granularity: u64) -> bool
    ensures { result ≡ is_granularity granularity }
{
    matches!(granularity, 64 | 128 | 256)
}

#[tactic(auto, unfolding(crate::specs::Limits::granularity_in_force))]
pub fn granularity_in_force(asked: u32) -> u64
    ensures { result ≡ granularity_in_force asked }
{
    let granularity = u64::from(asked);
    if is_granularity(granularity) {
        granularity
    } else {
        MIN_GRANULARITY
    }
}

#[tactic(auto, unfolding(crate::specs::Limits::is_base_size), using(crate::proofs::Powers::one_bit))]
pub fn is_base_size(size: u64) -> bool
    ensures { result ≡ is_base_size size }
{
    size.is_power_of_two() && (MIN_BLOCK_SIZE..=crate::MAX_BLOCK_SIZE).contains(&size)
}

// If the request is not listed, the Rust takes the system's page granularity.
#[tactic(auto, unfolding(crate::specs::Limits::base_size_in_force))]
pub fn base_size_in_force(asked: u32) -> u64
    ensures { result ≡ base_size_in_force asked }
{
    let size = u64::from(asked);
    if is_base_size(size) {
        size
    } else {
        MIN_BLOCK_SIZE
    }
}
