// Makes the public calls on given states, also on states that no trace reaches. `stdin` has the cases of oracle/states.txt, and `stdout`
// what the oracle's plain program writes for them (oracle/make-states makes both). oracle/states.py says how a case is laid out and what
// is written.
#![tactic(auto)]

ghost use Rattle.std.specs.Prelude.{◌≡◌, length};

use block::Block;
use records::Call;
use sizes::Pool;
use state::{Answer, Asked, State};
use std::io;
use std::io::Read;

// ---- numbers

// Reads eight bytes, the lowest first. Those after the input's end count as 0.
fn read_u64<R: Read>(input: &mut R) -> io::Result<u64> {
    let mut bytes = [0; 8];
    feed::read_full(input, &mut bytes)?;
    Ok(u64::from_le_bytes(bytes))
}

// Reads eight bytes, and drops the upper half.
fn read_u32<R: Read>(input: &mut R) -> io::Result<u32> {
    Ok((read_u64(input)? % 4294967296) as u32)
}

fn read_usize<R: Read>(input: &mut R) -> io::Result<usize> {
    Ok(read_u64(input)? as usize)
}

// ---- a state, in

fn read_pool<R: Read>(input: &mut R) -> io::Result<Pool> {
    let granularity = read_u64(input)?;
    let blocks = read_u32(input)?;
    let empty = read_u32(input)?;
    let area = read_u32(input)?;
    let used = read_u32(input)?;
    Ok(Pool {
        granularity,
        blocks,
        empty,
        area,
        used,
    })
}

// Reads a record's numbers and its pools; it has no block yet.
fn read_state<R: Read>(input: &mut R) -> io::Result<State> {
    let size = read_u64(input)?;
    let granularity = read_u64(input)?;
    let poolcount = read_usize(input)?;
    let immediate = read_u64(input)? != 0;
    let w = read_usize(input)?;
    let slots = read_usize(input)?;
    let arena = read_u64(input)?;
    let length = read_u64(input)?;
    let live = read_u64(input)?;
    let count = read_usize(input)?;
    Ok(State {
        size,
        granularity,
        poolcount,
        immediate,
        w,
        slots,
        arena,
        length,
        live,
        count,
        blocks: [Block::default(); state::SLOT_LIMIT],
        order: [0; state::SLOT_LIMIT],
        pools: [read_pool(input)?, read_pool(input)?, read_pool(input)?],
    })
}

fn read_block<R: Read>(input: &mut R) -> io::Result<Block> {
    let base = read_u64(input)?;
    let size = read_u64(input)?;
    let pool = read_usize(input)?;
    let slot = read_usize(input)?;
    let flags = read_u32(input)?;
    let area = read_u32(input)?;
    let used = read_u32(input)?;
    let start = read_u32(input)?;
    let end = read_u32(input)?;
    let largest = read_u32(input)?;
    Ok(Block {
        base,
        size,
        pool,
        slot,
        flags,
        area,
        used,
        start,
        end,
        largest,
    })
}

// Reads an index, and the entries of `order` and of `blocks` at it.
fn put_entry<R: Read>(input: &mut R, mut s: State) -> io::Result<State> {
    let i = read_usize(input)?;
    let age = read_usize(input)?;
    let b = read_block(input)?;
    if i < state::SLOT_LIMIT {
        s.order[i] = age;
        s.blocks[i] = b;
    }
    Ok(s)
}

// Reads all words of a map, as runs of equal words: each run's end, and its word.
fn put_words<R: Read>(input: &mut R, words: &mut [u32]) -> io::Result<()> {
    let mut end: usize = 0;
    let mut word: u32 = 0;
    for (i, put) in words.iter_mut().enumerate() {
        if i >= end {
            end = read_usize(input)?;
            word = read_u32(input)?;
        }
        *put = word;
    }
    Ok(())
}

// ---- a state, out

fn head_line(rt: &impl Print, s: State) -> io::Result<()> {
    let numbers = [
        s.size,
        s.granularity,
        s.poolcount as u64,
        s.immediate as u64,
        s.w as u64,
        s.slots as u64,
        s.arena,
        s.length,
        s.live,
        s.count as u64,
    ];
    show::line(rt, b"record", &numbers)
}

fn pool_line(rt: &impl Print, q: Pool) -> io::Result<()> {
    let numbers = [
        q.granularity,
        q.blocks as u64,
        q.empty as u64,
        q.area as u64,
        q.used as u64,
    ];
    show::line(rt, b"pool", &numbers)
}

fn show_pools(rt: &impl Print, s: State) -> io::Result<()> {
    for q in s.pools {
        pool_line(rt, q)?;
    }
    Ok(())
}

fn entry_line(rt: &impl Print, i: usize, age: usize, b: Block) -> io::Result<()> {
    let numbers = [
        i as u64,
        age as u64,
        b.base,
        b.size,
        b.pool as u64,
        b.slot as u64,
        b.flags as u64,
        b.area as u64,
        b.used as u64,
        b.start as u64,
        b.end as u64,
        b.largest as u64,
    ];
    show::line(rt, b"entry", &numbers)
}

fn show_entries(rt: &impl Print, s: State) -> io::Result<()> {
    for (i, (age, b)) in s.order.iter().zip(&s.blocks).enumerate() {
        if *age != 0 || *b != Block::default() {
            entry_line(rt, i, *age, *b)?;
        }
    }
    Ok(())
}

// Writes each word that differs from the one before it; the first is compared with 0.
fn show_words(rt: &impl Print, name: &str, words: &[u32]) -> io::Result<()> {
    let mut before = 0;
    for (i, word) in words.iter().enumerate() {
        if *word != before {
            println!(rt; "{name} {i} {word:08x}")?;
        }
        before = *word;
    }
    Ok(())
}

// ---- cases

fn read_asked<R: Read>(input: &mut R) -> io::Result<Asked> {
    let size = read_u32(input)?;
    let granularity = read_u32(input)?;
    let flags = read_u32(input)?;
    let w = read_u32(input)?;
    let arena = read_u64(input)?;
    let length = read_u64(input)?;
    Ok(Asked {
        size,
        granularity,
        flags,
        w,
        arena,
        length,
    })
}

// Reads a call by its kind in a trace.
fn read_call<R: Read>(input: &mut R, kind: u64) -> io::Result<Call> {
    Ok(match kind {
        1 => Call::Create(read_asked(input)?),
        2 => Call::Alloc(read_u64(input)?),
        3 => Call::Release(read_u64(input)?),
        4 => Call::Shrink(read_u64(input)?, read_u64(input)?),
        5 => Call::Query(read_u64(input)?),
        6 => Call::SoftReset,
        _ => Call::HardReset,
    })
}

// Returns the state to hand to a call: zeros for a creation. If a creation is refused, `calls` returns the state before it, but a case must
// go on with the record of zeros that `create` returns.
fn before(s: State, c: &Call) -> State {
    match c {
        Call::Create(_) => state::zero_state(),
        _ => s,
    }
}

fn show_answer(rt: &impl Print, answer: Answer) -> io::Result<()> {
    let mut out = [0; text::LINE];
    let end = lines::put_answer(&mut out, 0, answer);
    show::front(rt, &out, end)
}

// A case's record, and the words that its calls are lent.
#[derive(Drop)]
struct Case<'a> {
    state: State,
    used: &'a mut [u32],
    stop: &'a mut [u32],
}

impl Case<'_> {
    fn make<R: Read>(&mut self, rt: &impl Print, input: &mut R, kind: u64) -> io::Result<()> {
        let c = read_call(input, kind)?;
        let o = calls::call(before(self.state, &c), self.used, self.stop, c);
        self.state = o.state;
        show_answer(rt, o.answer)
    }

    fn show(&self, rt: &impl Print) -> io::Result<()> {
        head_line(rt, self.state)?;
        show_pools(rt, self.state)?;
        show_entries(rt, self.state)?;
        show_words(rt, "used", self.used)?;
        show_words(rt, "stop", self.stop)
    }

    // Plays a step: makes a call, puts an entry into the lists, or shows all that isn't zero.
    fn play<R: Read>(&mut self, rt: &impl Print, input: &mut R, kind: u64) -> io::Result<()> {
        match kind {
            8 => self.state = put_entry(input, self.state)?,
            9 => self.show(rt)?,
            _ => self.make(rt, input, kind)?,
        }
        Ok(())
    }
}

// Bounds the loops, so that they end whatever the input is.
const TURNS: u32 = 1000000;

fn play_steps<R: Read>(
    rt: &impl Print,
    input: &mut R,
    used: &mut [u32],
    stop: &mut [u32],
) -> io::Result<()> {
    put_words(input, used)?;
    put_words(input, stop)?;
    let state = read_state(input)?;
    let mut case = Case { state, used, stop };
    for _ in 0..TURNS {
        let kind = read_u64(input)?;
        if kind == 0 {
            return Ok(());
        }
        case.play(rt, input, kind)?;
    }
    Ok(())
}

// Reads the lengths of the case's slices, and plays its steps on so many words.
fn play_lent<R: Read>(
    rt: &impl Print,
    input: &mut R,
    used: &mut [u32],
    stop: &mut [u32],
) -> io::Result<()> {
    let u = read_usize(input)?;
    let t = read_usize(input)?;
    if u <= used.len() && t <= stop.len() {
        play_steps(rt, input, &mut used[..u], &mut stop[..t])?;
    }
    Ok(())
}

// 64 slots of 4,096 words: blocks of 32 MiB in units of 256 bytes.
fn map_words() -> [u32; 262144]
    ensures { 262144 ≡ length result }
{
    [0; 262144]
}

// Copies the case's label, a line of 64 bytes, to the output.
fn label_line<R: Read>(rt: &impl Print, input: &mut R) -> io::Result<()> {
    let mut bytes = [0; 64];
    let n = feed::read_full(input, &mut bytes)?;
    rt.write_all(&bytes[..n])
}

fn play_case<R: Read>(rt: &impl Print, input: &mut R) -> io::Result<()> {
    label_line(rt, input)?;
    let mut used = map_words();
    let mut stop = map_words();
    play_lent(rt, input, &mut used, &mut stop)
}

fn main(rt: HostRuntime) -> io::Result<()> {
    let mut input = rt.stdin();
    for _ in 0..TURNS {
        if read_u64(&mut input)? == 0 {
            return Ok(());
        }
        play_case(&rt, &mut input)?;
    }
    Ok(())
}
