// Writes document 01's lines into lent bytes from an index on: an answer's line, and the last line of a trace. Each function returns the
// index after what it wrote.
#![tactic(auto)]

ghost use Rattle.std.specs.Prelude.{◌≡◌, [], ◌∷◌, ◌+◌, ◌≤◌, length};
ghost use Rattle.text.specs.Line.{line};
ghost use Rattle.text.specs.Put.{Puts};
ghost use Rattle.lines.specs.Lines.{answer_line};
ghost use Rattle.lines.specs.Last.{used_units, end_line, bad_line, Finishes};

use state::{Answer, Span, State};

fn put_span(out: &mut [u8], at: usize, word: &[u8], x: Span) -> usize
    requires room { at + 80 ≤ length out.old }
    requires short_word { length word.now ≤ 8 }
    ensures { Puts out.old at (line word.now (x.address ∷ x.size ∷ [])) out.new result }
{
    text::put_line(out, at, word, &[x.address, x.size])
}

// Writes an answer's line: a query's is like an allocation's.
#[tactic(auto, unfolding(crate::specs::Lines::answer_line))]
pub fn put_answer(out: &mut [u8], at: usize, answer: Answer) -> usize
    requires { at + 80 ≤ length out.old }
    ensures { Puts out.old at (answer_line answer) out.new result }
{
    match answer {
        Answer::Created(size, granularity, poolcount) => text::put_line(
            out,
            at,
            b"created",
            &[size, granularity, poolcount as u64],
        ),
        Answer::Granted(x) | Answer::Shown(x) => put_span(out, at, b"span", x),
        Answer::Released(x) => put_span(out, at, b"released", x),
        Answer::Shrunk(x) => put_span(out, at, b"shrunk", x),
        Answer::Reset => text::put_line(out, at, b"reset", &[]),
        Answer::Refused(why) => text::put_line(out, at, b"refused", &[u64::from(why)]),
    }
}

// ---- the last line

fn used_units(s: State) -> u64
    ensures { result ≡ used_units s }
{
    let [a, b, c] = s.pools;
    u64::from(a.used) + u64::from(b.used) + u64::from(c.used)
}

// Writes the last line of a trace whose records are all good.
#[tactic(auto, unfolding(crate::specs::Last::end_line))]
fn put_end(out: &mut [u8], at: usize, s: State) -> usize
    requires { at + 80 ≤ length out.old }
    ensures { Puts out.old at (end_line s) out.new result }
{
    let units = used_units(s);
    text::put_line(out, at, b"end", &[s.live, s.count as u64, units])
}

// Writes the last line of a trace with a bad record at `offset`.
#[tactic(auto, unfolding(crate::specs::Last::bad_line))]
fn put_bad(out: &mut [u8], at: usize, offset: u64) -> usize
    requires { at + 80 ≤ length out.old }
    ensures { Puts out.old at (bad_line offset) out.new result }
{
    text::put_line(out, at, b"bad", &[offset])
}

// Writes the last line after `offset` bytes were played and `left` bytes remain that are no whole good record. If `out` has no room for a
// line, it writes nothing.
#[tactic(auto, using(crate::proofs::Last::end_most, crate::proofs::Last::bad_most))]
pub fn finish(s: State, offset: u64, left: usize, out: &mut [u8]) -> usize
    ensures finishes { Finishes s offset left out.old out.new result }
    ensures within { result ≤ length out.old }
{
    if out.len() < text::LINE {
        return 0;
    }
    if left == 0 {
        return put_end(out, 0, s);
    }
    put_bad(out, 0, offset)
}
