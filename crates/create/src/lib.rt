// The call create.
#![tactic(auto)]

ghost use Rattle.std.specs.Prelude.{◌≡◌, ◌<◌};
ghost use Rattle.state.specs.declared.Refusal.TheVariants.{InvalidArgument};
ghost use Rattle.state.specs.declared.Answer.TheVariants.{Created};
ghost use Rattle.state.specs.Table.{zero_state};
ghost use Rattle.state.specs.Outcome.{refusal};
ghost use Rattle.machine.specs.Turn.{turn_of};
ghost use Rattle.machine.specs.Create.{pools_asked, immediate_asked, slots_of, grantable, fresh_state, create_turn};

use sizes::Pool;
use state::{Answer, Asked, Outcome, Refusal, State};

// Returns the number of pools: bit 0 of the flags asks for three.
fn pools_asked(flags: u32) -> usize
    ensures { result ≡ pools_asked flags }
{
    if flags % 2 == 0 { 1 } else { 3 }
}

// True if bit 1 of the flags asks for immediate release: no empty block is kept.
fn immediate_asked(flags: u32) -> bool
    ensures { result ≡ immediate_asked flags }
{
    flags / 2 % 2 != 0
}

// Returns how many slots the allocator has: those of `w` words that fit whole into both slices, at most 64.
fn slots_of(w: usize, used: usize, stop: usize) -> usize
    requires { 0 < w }
    ensures { result ≡ slots_of w used stop }
{
    let words = used.min(stop);
    state::SLOT_LIMIT.min(words / w)
}

// True if W, the slot count and the arena are in range. It tests W first, since `slots_of` divides by it.
fn is_grantable(asked: Asked, used: usize, stop: usize) -> bool
    ensures { result ≡ grantable asked used stop }
{
    let w = asked.w as usize;
    (1..=state::MAX_SLOT_WORDS).contains(&w)
        && slots_of(w, used, stop) >= 1
        && shape::creation::arena_ok(asked.arena, asked.length)
}

// Makes the record of an allocator with no block.
fn fresh_state(asked: Asked, slots: usize) -> State
    ensures { result ≡ fresh_state asked slots }
{
    let granularity = sizes::limits::granularity_in_force(asked.granularity);
    State {
        size: sizes::limits::base_size_in_force(asked.size),
        granularity,
        poolcount: pools_asked(asked.flags),
        immediate: immediate_asked(asked.flags),
        w: asked.w as usize,
        slots,
        arena: asked.arena,
        length: asked.length,
        pools: [Pool::new(granularity); 3],
        ..state::zero_state()
    }
}

// Makes the outcome of a granted creation. Its answer tells the size, granularity and pool count in force.
fn created(state: State) -> Outcome
    ensures { (result.state ≡ state) × (result.answer ≡ Created state.size state.granularity state.poolcount) }
{
    Outcome {
        answer: Answer::Created(state.size, state.granularity, state.poolcount),
        state,
    }
}

fn not_granted() -> Outcome
    ensures { result ≡ refusal zero_state InvalidArgument }
{
    state::refused(state::zero_state(), Refusal::InvalidArgument)
}

// Creates an allocator over the two slices and the arena. A size or a granularity that is not listed becomes the least one; any other
// number out of its range is refused, and then no word is written.
#[tactic(auto, unfolding(machine::specs::Create::create_turn))]
pub fn create(asked: Asked, used: &mut [u32], stop: &mut [u32]) -> Outcome
    ensures { turn_of result used.new stop.new ≡ create_turn asked used.old stop.old }
{
    if !is_grantable(asked, used.len(), stop.len()) {
        return not_granted();
    }
    let w = asked.w as usize;
    let slots = slots_of(w, used.len(), stop.len());
    let words = slots * w;
    used[..words].fill(0);
    stop[..words].fill(0);
    created(fresh_state(asked, slots))
}
