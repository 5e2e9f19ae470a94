// Fills with a pattern the bytes that a call leaves unused, in an image of the arena.
ghost use Rattle.std.specs.Prelude.{◌≡◌, ◌+◌, ◌-◌, ◌<◌, ◌≤◌, length};
ghost use Rattle.sizes.specs.Limits.{slot_limit};
ghost use Rattle.image.specs.Image.{filled_at};
ghost use Rattle.state.specs.declared.Answer.TheVariants.{Reset};
ghost use Rattle.filling.specs.Unused.{bytes_of_block, made, freed, tail_of, cut_off, blocks_up_to, kept_bytes, filled_image};
ghost use Rattle.filling.specs.InArena.{InArena, AllInArena};

use block::Block;
use state::{Answer, Span, State};

fn bytes_of_block(b: Block) -> Span
    ensures { result ≡ bytes_of_block b }
{
    Span {
        address: b.base,
        size: b.size,
    }
}

// Fills one span's bytes.
fn fill_span(image: &mut [u8], arena: u64, x: Span, pattern: u32)
    requires { InArena arena (length image.old) x }
    ensures { image.new ≡ filled_at image.old (x.address - arena) x.size pattern }
{
    let at = (x.address - arena) as usize;
    image::fill_pattern(image, at, x.size as usize, pattern);
}

// Fills a new block's bytes. There is a new block, of age `before`, if there are more blocks than before the call.
#[tactic(auto, using(crate::proofs::Unused::makes), unfolding(crate::specs::Unused::filled_image))]
pub fn fill_made(image: &mut [u8], arena: u64, before: usize, r: State, pattern: u32)
    requires in_table { before < r.count → before < slot_limit }
    requires in_arena { AllInArena arena (length image.old) (made before r) }
    ensures { image.new ≡ filled_image arena pattern image.old (made before r) }
{
    if before < r.count {
        fill_span(image, arena, bytes_of_block(r.blocks[before]), pattern);
    }
}

// Fills the bytes of a released span.
#[tactic(auto, unfolding(crate::specs::Unused::filled_image))]
pub fn fill_freed(image: &mut [u8], arena: u64, answer: Answer, pattern: u32)
    requires { AllInArena arena (length image.old) (freed answer) }
    ensures { image.new ≡ filled_image arena pattern image.old (freed answer) }
{
    if let Answer::Released(x) = answer {
        fill_span(image, arena, x, pattern);
    }
}

// Fills the bytes after the shortened span `x`, up to the end that the query `was` showed before.
#[tactic(auto, unfolding(crate::specs::Unused::filled_image))]
fn fill_behind(image: &mut [u8], arena: u64, was: Answer, x: Span, pattern: u32)
    requires { AllInArena arena (length image.old) (tail_of x was) }
    ensures { image.new ≡ filled_image arena pattern image.old (tail_of x was) }
{
    if let Answer::Shown(y) = was {
        let tail = Span {
            address: x.address + x.size,
            size: y.size.saturating_sub(x.size),
        };
        fill_span(image, arena, tail, pattern);
    }
}

// Fills the bytes that a shrink cut off.
#[tactic(auto, unfolding(crate::specs::Unused::filled_image))]
pub fn fill_cut_off(image: &mut [u8], arena: u64, was: Answer, answer: Answer, pattern: u32)
    requires { AllInArena arena (length image.old) (cut_off was answer) }
    ensures { image.new ≡ filled_image arena pattern image.old (cut_off was answer) }
{
    if let Answer::Shrunk(x) = answer {
        fill_behind(image, arena, was, x, pattern);
    }
}

// Fills all bytes of all blocks.
#[tactic(auto, using(crate::proofs::Unused::walks))]
fn fill_blocks(image: &mut [u8], arena: u64, r: State, pattern: u32)
    requires few { r.count ≤ slot_limit }
    requires in_arena { AllInArena arena (length image.old) (blocks_up_to r r.count) }
    ensures { image.new ≡ filled_image arena pattern image.old (blocks_up_to r r.count) }
{
    for b in &r.blocks[..r.count] {
        fill_span(image, arena, bytes_of_block(*b), pattern);
    }
}

// Fills all bytes of the blocks that a reset kept.
#[tactic(auto, unfolding(crate::specs::Unused::filled_image))]
pub fn fill_kept(image: &mut [u8], arena: u64, r: State, answer: Answer, pattern: u32)
    requires few { answer ≡ Reset → r.count ≤ slot_limit }
    requires in_arena { AllInArena arena (length image.old) (kept_bytes r answer) }
    ensures { image.new ≡ filled_image arena pattern image.old (kept_bytes r answer) }
{
    if let Answer::Reset = answer {
        fill_blocks(image, arena, r, pattern);
    }
}
