// The calls with an image of the arena lent to them: each fills with a pattern the bytes that it leaves unused.
#![tactic(auto)]

pub mod copy;
pub mod fill;

ghost use Rattle.std.specs.Prelude.{◌≡◌, ◌≢◌, [], length};
ghost use Rattle.numbers.specs.Pick.{pick};
ghost use Rattle.state.specs.declared.Refusal.TheVariants.{InvalidArgument, BadShape};
ghost use Rattle.state.specs.Shape.{bad_shape};
ghost use Rattle.state.specs.Outcome.{refusal};
ghost use Rattle.machine.specs.Turn.{turn_of};
ghost use Rattle.machine.specs.Machine.{Call, alloc, release, shrink, soft_reset, hard_reset};
ghost use Rattle.filling.specs.Unused.{lent_step, unused, image_after};

use state::{Outcome, Refusal, State};

// Returns the refusal of an image that is not as long as the arena: 5 if the shape is bad too, else 1.
pub fn wrong_image(s: State, used: usize, stop: usize) -> Refusal
    ensures { result ≡ pick (bad_shape s used stop) BadShape InvalidArgument }
{
    if !shape::shape_ok(s, used, stop) {
        return Refusal::BadShape;
    }
    Refusal::InvalidArgument
}

// Refuses, whatever the call is: the image is not as long as the arena.
fn not_lent(s: State, used: &[u32], stop: &[u32], room: usize) -> Outcome
    requires { room ≢ s.length }
    ensures refusal { result ≡ refusal s (pick (bad_shape s (length used.now) (length stop.now)) BadShape InvalidArgument) }
    ensures turn { (c : Call) → turn_of result used.now stop.now ≡ lent_step s used.now stop.now room c }
    ensures fills_nothing { (c : Call) → unused s used.now stop.now c (lent_step s used.now stop.now room c) ≡ [] }
{
    state::refused(s, wrong_image(s, used.len(), stop.len()))
}

// Grants a span of at least `size` bytes, and fills a new block.
#[tactic(auto, using(crate::proofs::Lent::alloc_lent), unfolding(crate::specs::Unused::filled_image))]
pub fn alloc(
    s: State,
    used: &mut [u32],
    stop: &mut [u32],
    image: &mut [u8],
    pattern: u32,
    size: u64,
) -> Outcome
    ensures turn { turn_of result used.new stop.new ≡ lent_step s used.old stop.old (length image.old) (alloc size) }
    ensures image_after { image.new ≡ image_after s used.old stop.old pattern image.old (alloc size) }
{
    if image.len() as u64 != s.length {
        return not_lent(s, used, stop, image.len());
    }
    let r = alloc::alloc(s, used, stop, size);
    fill::fill_made(image, s.arena, s.count, r.state, pattern);
    r
}

// Frees the span that starts at an address, and fills its bytes.
#[tactic(auto, using(crate::proofs::Lent::release_lent), unfolding(crate::specs::Unused::filled_image))]
pub fn release(
    s: State,
    used: &mut [u32],
    stop: &mut [u32],
    image: &mut [u8],
    pattern: u32,
    address: u64,
) -> Outcome
    ensures turn { turn_of result used.new stop.new ≡ lent_step s used.old stop.old (length image.old) (release address) }
    ensures image_after { image.new ≡ image_after s used.old stop.old pattern image.old (release address) }
{
    if image.len() as u64 != s.length {
        return not_lent(s, used, stop, image.len());
    }
    let r = release::release(s, used, stop, address);
    fill::fill_freed(image, s.arena, r.answer, pattern);
    r
}

// Shortens the span that starts at an address to the units that `size` bytes take, and fills the bytes after them; a size of 0 releases it.
#[tactic(auto, using(crate::proofs::Lent::cut_lent), unfolding(crate::specs::Unused::filled_image))]
pub fn shrink(
    s: State,
    used: &mut [u32],
    stop: &mut [u32],
    image: &mut [u8],
    pattern: u32,
    address: u64,
    size: u64,
) -> Outcome
    ensures turn { turn_of result used.new stop.new ≡ lent_step s used.old stop.old (length image.old) (shrink address size) }
    ensures image_after { image.new ≡ image_after s used.old stop.old pattern image.old (shrink address size) }
{
    if image.len() as u64 != s.length {
        return not_lent(s, used, stop, image.len());
    }
    let was = query::query(s, used, stop, address);
    let after = shrink::shrink(s, used, stop, address, size);
    fill::fill_freed(image, s.arena, after.answer, pattern);
    fill::fill_cut_off(image, s.arena, was, after.answer, pattern);
    after
}

// Removes all blocks, and fills nothing.
#[tactic(auto, using(crate::proofs::Lent::reset_lent, crate::proofs::Lent::hard_none), unfolding(crate::specs::Unused::filled_image))]
pub fn hard_reset(
    s: State,
    used: &mut [u32],
    stop: &mut [u32],
    image: &mut [u8],
    pattern: u32,
) -> Outcome
    ensures turn { turn_of result used.new stop.new ≡ lent_step s used.old stop.old (length image.old) hard_reset }
    ensures image_after { image.new ≡ image_after s used.old stop.old pattern image.old hard_reset }
{
    if image.len() as u64 != s.length {
        return not_lent(s, used, stop, image.len());
    }
    reset::hard_reset(s, used, stop)
}

// Removes all blocks but each pool's oldest, which it empties and fills.
#[tactic(auto, using(crate::proofs::Lent::reset_lent), unfolding(crate::specs::Unused::filled_image))]
pub fn soft_reset(
    s: State,
    used: &mut [u32],
    stop: &mut [u32],
    image: &mut [u8],
    pattern: u32,
) -> Outcome
    ensures turn { turn_of result used.new stop.new ≡ lent_step s used.old stop.old (length image.old) soft_reset }
    ensures image_after { image.new ≡ image_after s used.old stop.old pattern image.old soft_reset }
{
    if image.len() as u64 != s.length {
        return not_lent(s, used, stop, image.len());
    }
    let r = reset::soft_reset(s, used, stop);
    fill::fill_kept(image, s.arena, r.state, r.answer, pattern);
    r
}
