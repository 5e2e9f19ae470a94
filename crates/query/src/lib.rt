// The call query.
#![tactic(auto)]

ghost use Rattle.std.specs.Prelude.{◌≡◌};
ghost use Rattle.machine.specs.Span.{query_turn};

use state::{Answer, Refusal, State};

// Shows the span that starts at an address. Changes nothing.
pub fn query(s: State, used: &[u32], stop: &[u32], address: u64) -> Answer
    ensures { result ≡ (query_turn s used.now stop.now address).answer }
{
    if !shape::shape_ok(s, used.len(), stop.len()) {
        return Answer::Refused(Refusal::BadShape);
    }
    let Some(j) = table::lookup_block(s, address) else {
        return Answer::Refused(Refusal::InvalidArgument);
    };
    match spans::held_in(s, used, stop, j, address) {
        Err(why) => Answer::Refused(why.into()),
        Ok(units) => Answer::Shown(spans::span_at(s, j, address, units.to - units.from)),
    }
}
