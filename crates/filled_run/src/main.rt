// Plays a trace from standard input, lends each call an image of the arena and tries a write into a span after it, in the form of
// oracle/README.md ("Filled mode"), so that every byte of the image can be compared with the original's.
#![tactic(auto)]

ghost use Rattle.std.specs.Prelude.{◌<◌, ◌≤◌, length};

use records::{Call, Record, Unread};
use state::{Answer, Outcome, State};
use std::io;

// In memory: the bytes 44 33 22 11.
const PATTERN: u32 = 0x11223344;

// ---- calls

// Returns the lesser of `n` and the number of bytes.
fn at_most(n: u64, bytes: &[u8]) -> usize
    ensures { result ≤ length bytes.now }
{
    n.min(bytes.len() as u64) as usize
}

// What each call is lent: both maps, and an image of the arena at its front. The calls refuse the image for an arena longer than 1 MiB.
#[derive(Drop)]
struct Lent {
    used: [u32; 8192],
    stop: [u32; 8192],
    image: [u8; 1048576],
}

impl Lent {
    fn new() -> Self {
        Lent {
            used: feed::map_words(),
            stop: feed::map_words(),
            image: [0; 1048576],
        }
    }

    // Makes a call, and lends it the image's bytes that stand for the arena.
    fn call(&mut self, s: State, c: Call) -> Outcome {
        let n = at_most(s.length, &self.image);
        let all = &mut self.image[..];
        call(s, &mut self.used, &mut self.stop, &mut all[..n], c)
    }

    // Writes bytes into the span at an address.
    fn copy(&mut self, s: State, address: u64, offset: u64, bytes: &[u8]) -> Answer {
        let n = at_most(s.length, &self.image);
        let all = &mut self.image[..];
        filling::copy::copy_from_slice(
            s,
            &self.used,
            &self.stop,
            &mut all[..n],
            address,
            offset,
            bytes,
        )
    }

    // Clears the image after a granted creation.
    fn clear_where_created(&mut self, answer: Answer) {
        if let Answer::Created(_, _, _) = answer {
            self.image.fill(0);
        }
    }

    // Returns the hash of the bytes that stand for the arena.
    fn hash(&self, s: State) -> u32 {
        let n = at_most(s.length, &self.image);
        hash(&self.image[..n])
    }
}

fn call(s: State, used: &mut [u32], stop: &mut [u32], image: &mut [u8], c: Call) -> Outcome {
    match c {
        Call::Alloc(size) => filling::alloc(s, used, stop, image, PATTERN, size),
        Call::Release(address) => filling::release(s, used, stop, image, PATTERN, address),
        Call::Shrink(address, size) => filling::shrink(
            s, used, stop, image, PATTERN, address, size,
        ),
        Call::SoftReset => filling::soft_reset(s, used, stop, image, PATTERN),
        Call::HardReset => filling::hard_reset(s, used, stop, image, PATTERN),
        Call::Create(_) | Call::Query(_) => calls::call(s, used, stop, c),
    }
}

fn hash(bytes: &[u8]) -> u32 {
    bytes.iter().fold(
        0,
        |hash: u32, byte| hash.wrapping_mul(31).wrapping_add(*byte as u32),
    )
}

// ---- the write after call number k

fn call_address(c: Call) -> u64 {
    match c {
        Call::Release(address) | Call::Shrink(address, _) | Call::Query(address) => address,
        Call::Create(_) | Call::Alloc(_) | Call::SoftReset | Call::HardReset => 0,
    }
}

// Returns the address of the answer's span, or else the call's own address.
fn write_address(answer: Answer, c: Call) -> u64 {
    match answer {
        Answer::Granted(x) | Answer::Shown(x) | Answer::Released(x) | Answer::Shrunk(x) =>
            x.address,
        Answer::Created(_, _, _) | Answer::Reset | Answer::Refused(_) => call_address(c),
    }
}

fn near(k: u64) -> u64
    ensures { result < 60 }
{
    k % 60 * 7 % 60
}

// Returns the write's offset: now and then so large that adding the length passes 64 bits, or far from the span's start.
fn write_offset(k: u64) -> u64 {
    match k % 16 {
        0 => u64::MAX - k % 3,
        8 => k % 131072 * 1021 % 131072,
        _ => near(k),
    }
}

// Returns the write's length. For odd k the write ends where a span of 64 bytes ends, or one byte after a span of 64, 128 or 256.
fn write_length(k: u64) -> u64 {
    match k % 8 {
        1 => 64 - near(k),
        3 => 65 - near(k),
        5 => 129 - near(k),
        7 => 257 - near(k),
        _ => k % 149 * 5 % 149,
    }
}

fn write_byte(k: u64, j: usize) -> u8 {
    ((k % 256 * 13 + j as u64 % 256 * 31) % 256) as u8
}

// Returns the write's bytes, and as many more as the longest write has.
fn write_bytes(k: u64) -> [u8; 257] {
    let mut bytes = [0; 257];
    for (j, byte) in bytes.iter_mut().enumerate() {
        *byte = write_byte(k, j);
    }
    bytes
}

fn show_write(rt: &impl Print, answer: Answer) -> io::Result<()> {
    if let Answer::Shown(x) = answer {
        show::line(rt, b"  wrote", &[x.address, x.size])?;
    }
    if let Answer::Refused(why) = answer {
        show::line(rt, b"  refused", &[u64::from(why)])?;
    }
    Ok(())
}

// Tries a write after call number k, and shows its answer.
fn write(rt: &impl Print, lent: &mut Lent, s: State, k: u64, address: u64) -> io::Result<()> {
    let bytes = write_bytes(k);
    let n = at_most(write_length(k), &bytes);
    let answer = lent.copy(s, address, write_offset(k), &bytes[..n]);
    show_write(rt, answer)
}

// ---- lines

fn show_answer(rt: &impl Print, answer: Answer) -> io::Result<()> {
    let mut out: [u8; 80] = [0; 80];
    let end = lines::put_answer(&mut out, 0, answer);
    show::front(rt, &out, end)
}

fn show_last(rt: &impl Print, s: State, offset: u64, left: usize) -> io::Result<()> {
    let mut out: [u8; 80] = [0; 80];
    let end = lines::finish(s, offset, left, &mut out);
    show::front(rt, &out, end)
}

// ---- the trace

// Makes call number k and shows its line; if an allocator exists, tries the write and shows the image's hash.
fn turn(rt: &impl Print, lent: &mut Lent, s: State, k: u64, c: Call) -> io::Result<State> {
    let o = lent.call(s, c);
    let answer = o.answer;
    let after = o.state;
    show_answer(rt, answer)?;
    lent.clear_where_created(answer);
    if after.length != 0 {
        write(rt, lent, after, k, write_address(answer, c))?;
        show::line(rt, b"  image", &[lent.hash(after) as u64])?;
    }
    Ok(after)
}

fn read(bytes: &[u8], taken: usize) -> Result<Record, Unread> {
    if taken < bytes.len() {
        return records::read(&bytes[taken..]);
    }
    Err(Unread::Cut)
}

fn play_all(rt: &impl Print, lent: &mut Lent, bytes: &[u8]) -> io::Result<()> {
    let mut state = state::zero_state();
    let mut taken: usize = 0;
    // bounds the loop: a trace that fits the buffer has fewer records
    for k in 1..65536 {
        let Ok(record) = read(bytes, taken) else {
            return show_last(rt, state, taken as u64, bytes.len().saturating_sub(taken));
        };
        state = turn(rt, lent, state, k, record.call)?;
        taken = taken.wrapping_add(record.length);
    }
    Ok(())
}

fn main(rt: HostRuntime) -> io::Result<()> {
    let mut lent = Lent::new();
    let mut bytes = [0u8; 65536];
    let n = feed::read_full(&mut rt.stdin(), &mut bytes)?;
    if n == bytes.len() {
        return eprintln!(rt; "the trace is too long for this program");
    }
    play_all(&rt, &mut lent, &bytes[..n])
}
