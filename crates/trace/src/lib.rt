// Plays a trace: reads records from lent bytes, makes their calls, and writes document 01's lines into lent bytes. specs/Output.antt says
// what is written for any bytes at all; proofs/Sessions.antt proves that every way to read a trace in pieces, play them and finish writes
// it.
#![tactic(auto)]

ghost use Rattle.std.specs.Prelude.{◌/◌, ◌≤◌, length};
ghost use Rattle.trace.specs.Play.{Plays, play};

use records::Unread;
use state::State;

// How far a play came: the state, the bytes taken and written, and whether a bad record follows those taken.
#[derive(Clone, Copy)]
pub struct Played {
    pub state: State,
    pub taken: usize,
    pub written: usize,
    pub bad: bool,
}

// Plays the whole good records at the front of `bytes`, as many as `out` has room for, and writes their lines to the front of `out`.
pub fn play(s: State, used: &mut [u32], stop: &mut [u32], bytes: &[u8], out: &mut [u8]) -> Played
    ensures plays { Plays (play (length out.old / 80) s used.old stop.old bytes.now) out.old
        result.state used.new stop.new result.taken result.bad out.new result.written }
    ensures taken_within { result.taken ≤ length bytes.now }
    ensures written_within { result.written ≤ length out.old }
{
    let mut p = Played {
        state: s,
        taken: 0,
        written: 0,
        bad: false,
    };
    for _ in 0..out.len() / text::LINE {
        let record = match records::read(&bytes[p.taken..]) {
            Ok(record) => record,
            Err(unread) => {
                p.bad = unread == Unread::Bad;
                return p;
            }
        };
        let o = calls::call(p.state, used, stop, record.call);
        p.state = o.state;
        p.written = lines::put_answer(out, p.written, o.answer);
        p.taken += record.length;
    }
    p
}
