// Makes the call that a trace's record asks for.
#![tactic(auto)]

ghost use Rattle.std.specs.Prelude.{◌≡◌};
ghost use Rattle.machine.specs.Turn.{turn_of};
ghost use Rattle.machine.specs.Machine.{create, step};
ghost use Rattle.calls.specs.Calls.{call_by};

use records::Call;
use state::{Answer, Asked, Outcome, State};

// Creates an allocator. If that is refused, the trace goes on with the state before it, since nothing was created.
fn call_create(s: State, used: &mut [u32], stop: &mut [u32], asked: Asked) -> Outcome
    ensures { turn_of result used.new stop.new ≡ step s used.old stop.old (create asked) }
{
    let made = create::create(asked, used, stop);
    match made.answer {
        Answer::Refused(_) => Outcome { state: s, ..made },
        _ => made,
    }
}

// Makes one call.
pub fn call(s: State, used: &mut [u32], stop: &mut [u32], c: Call) -> Outcome
    ensures { turn_of result used.new stop.new ≡ step s used.old stop.old (call_by c) }
{
    match c {
        Call::Create(asked) => call_create(s, used, stop, asked),
        Call::Alloc(size) => alloc::alloc(s, used, stop, size),
        Call::Release(address) => release::release(s, used, stop, address),
        Call::Shrink(address, size) => shrink::shrink(s, used, stop, address, size),
        Call::Query(address) => {
            let answer = query::query(s, used, stop, address);
            Outcome { answer, state: s }
        }
        Call::SoftReset => reset::soft_reset(s, used, stop),
        Call::HardReset => reset::hard_reset(s, used, stop),
    }
}
