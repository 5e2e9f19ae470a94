// Feeds a trace from a file or from standard input to the trace library, one buffer at a time. The programs that play traces share this.
#![tactic(auto)]

ghost use Rattle.std.specs.Prelude.{◌≡◌, false, ◌+◌, ◌-◌, ◌/◌, ◌%◌, ◌^◌, ◌≤◌, ◌<◌, length, take, IfOk, OnErr};
ghost use Rattle.trace.specs.Play.{play};

use state::State;
use std::env::FillError;
use std::fs::File;
use std::io;
use std::io::{ErrorKind, Read};
use std::rt::{Env, Stdin};
use trace::Played;

// ---- where a trace comes from

// Where a trace comes from.
#[derive(Drop)]
pub enum Source {
    File(File),
    Stdin(Stdin),
}

impl Read for Source {
    fn read(&mut self, buffer: &mut [u8]) -> io::Result<usize> {
        match self {
            Source::File(file) => file.read(buffer),
            Source::Stdin(stdin) => stdin.read(buffer),
        }
    }
}

// Opens the file that the program's argument names, or takes standard input if there is no argument.
pub fn open(rt: &HostRuntime) -> io::Result<Source> {
    let mut path = [0u8; 4096];
    match rt.arg(1, &mut path) {
        Ok(length) => {
            let Ok(name) = str::from_utf8(&path[..length]) else {
                return Err(io::Error::from(ErrorKind::InvalidData));
            };
            Ok(Source::File(File::open(rt, name)?))
        }
        Err(FillError::NotPresent) => Ok(Source::Stdin(rt.stdin())),
        Err(FillError::TooLong) => Err(io::Error::from(ErrorKind::InvalidFilename)),
    }
}

// Reads until the buffer is full or the input ends, and returns how many bytes came.
pub fn read_full<R: Read>(source: &mut R, bytes: &mut [u8]) -> io::Result<usize>
    ensures { IfOk result (λ n. n ≤ length bytes.old) }
{
    let mut done: usize = 0;
    while done < bytes.len() {
        let more = source.read(&mut bytes[done..])?;
        if more == 0 {
            break;
        }
        done += more;
    }
    Ok(done)
}

// ---- the play of a trace

// Makes a map of as many words as document 01's program has.
pub fn map_words() -> [u32; 8192]
    ensures { 8192 ≡ length result }
{
    [0; 8192]
}

// Where a trace stands: the state, how many bytes were played (`offset`), how many wait at the front of the buffer, how many the last turn
// wrote, and whether that turn was the last one (`done`).
#[derive(Clone, Copy)]
pub struct Feed {
    pub state: State,
    pub offset: u64,
    pub waiting: usize,
    pub written: usize,
    pub done: bool,
}

pub fn start() -> Feed
    ensures nothing_waits { result.waiting ≡ 0 }
    ensures nothing_written { result.written ≡ 0 }
{
    Feed {
        state: state::zero_state(),
        offset: 0,
        waiting: 0,
        written: 0,
        done: false,
    }
}

// Writes the trace's last line, and ends the trace.
fn last(f: Feed, out: &mut [u8]) -> Feed
    ensures state_stays { result.state ≡ f.state }
    ensures waiting_stays { result.waiting ≡ f.waiting }
    ensures lines_fit { result.written ≤ length out.old }
{
    Feed {
        written: lines::finish(f.state, f.offset, f.waiting, out),
        done: true,
        ..f
    }
}

// Reads on, since the buffer holds no whole record; writes the last line if the trace ends. If the read fails, there is no last line.
fn read_on<R: Read>(source: &mut R, f: Feed, buffer: &mut [u8], out: &mut [u8]) -> io::Result<Feed>
    requires { f.waiting ≤ length buffer.old }
    ensures state_stays { IfOk result (λ r. r.state ≡ f.state) }
    ensures fits { IfOk result (λ r. (r.waiting ≤ length buffer.old) × (r.written ≤ length out.old)) }
{
    let more = source.read(&mut buffer[f.waiting..])?;
    if more == 0 {
        return Ok(last(f, out));
    }
    Ok(Feed {
        waiting: f.waiting + more,
        written: 0,
        done: false,
        ..f
    })
}

// Drops the played records from the buffer: moves the bytes after them to its front.
fn go_on(f: Feed, p: Played, buffer: &mut [u8]) -> Feed
    requires taken_waited { p.taken ≤ f.waiting }
    requires waiting_fits { f.waiting ≤ length buffer.old }
    ensures has_its_state { result.state ≡ p.state }
    ensures goes_on { (result.offset ≡ (f.offset + p.taken) % 2 ^ 64) × (result.waiting ≡ f.waiting - p.taken) × (result.done ≡ false) }
    ensures waiting_fits { result.waiting ≤ length buffer.old }
    ensures shows_its_lines { result.written ≡ p.written }
{
    buffer.copy_within(p.taken..f.waiting, 0);
    Feed {
        state: p.state,
        offset: f.offset.wrapping_add(p.taken as u64),
        waiting: f.waiting - p.taken,
        written: p.written,
        done: false,
    }
}

// Takes one turn: plays the records in the buffer, as many as `out` has room for; reads on if there is no whole one; writes the last line
// if the trace ends. The caller then writes out the first `written` bytes of `out`. If the read fails, nothing was played.
pub fn turn<R: Read>(
    source: &mut R,
    f: Feed,
    used: &mut [u32],
    stop: &mut [u32],
    buffer: &mut [u8],
    out: &mut [u8],
) -> io::Result<Feed>
    requires { f.waiting ≤ length buffer.old }
    ensures ok { IfOk result (λ r. (r.waiting ≤ length buffer.old) × (r.written ≤ length out.old)) }
    ensures goes_on { IfOk result (λ r. let run = play (length out.old / 80) f.state used.old stop.old (take f.waiting buffer.old) in
        0 < run.taken → (r.offset ≡ (f.offset + run.taken) % 2 ^ 64) × (r.waiting ≡ f.waiting - run.taken) × (r.written ≡ length run.lines) × (r.done ≡ false)) }
    ensures plays { IfOk result (λ r. r.state ≡ (play (length out.old / 80) f.state used.old stop.old (take f.waiting buffer.old)).state) }
    ensures err { OnErr result ((used.new ≡ used.old) × (stop.new ≡ stop.old)) }
{
    let waiting = f.waiting;
    let p = trace::play(f.state, used, stop, &buffer[..waiting], out);
    if 0 < p.taken {
        return Ok(go_on(f, p, buffer));
    }
    let state = p.state;
    if p.bad {
        return Ok(last(Feed { state, ..f }, out));
    }
    read_on(source, Feed { state, ..f }, buffer, out)
}

// ---- a whole trace

// The play of a trace in lent memory: where it stands, the maps, the bytes read, and the lines that the last turn wrote.
#[derive(Drop)]
pub struct Play<'a> {
    pub feed: Feed,
    pub used: &'a mut [u32],
    pub stop: &'a mut [u32],
    pub buffer: &'a mut [u8],
    pub out: &'a mut [u8],
    ghost waiting_fits: { feed.waiting ≤ length buffer.now },
    ghost written_fits: { feed.written ≤ length out.now },
}

impl<'a> Play<'a> {
    // Starts before a trace's first byte.
    pub fn new(
        used: &'a mut [u32],
        stop: &'a mut [u32],
        buffer: &'a mut [u8],
        out: &'a mut [u8],
    ) -> Self
        ensures nothing_waits { result.feed.waiting ≡ 0 }
        ensures nothing_written { result.feed.written ≡ 0 }
    {
        Play {
            feed: start(),
            used,
            stop,
            buffer,
            out,
        }
    }

    // Returns the lines that the last turn wrote.
    pub fn lines(&self) -> &[u8]
        ensures { result.now ≡ take self.now.feed.written self.now.out.now }
    {
        &self.out[..self.feed.written]
    }

    // Takes one turn (`turn`). If the read fails, it leaves the maps and where the trace stands.
    pub fn turn<R: Read>(&mut self, source: &mut R) -> io::Result<()>
        ensures goes_on { IfOk result (λ u. let run = play (length self.old.out.now / 80) self.old.feed.state self.old.used.now self.old.stop.now (take self.old.feed.waiting self.old.buffer.now) in
            0 < run.taken → (self.new.feed.offset ≡ (self.old.feed.offset + run.taken) % 2 ^ 64) × (self.new.feed.waiting ≡ self.old.feed.waiting - run.taken)
            × (self.new.feed.written ≡ length run.lines) × (self.new.feed.done ≡ false)) }
        ensures plays { IfOk result (λ u. self.new.feed.state ≡ (play (length self.old.out.now / 80) self.old.feed.state self.old.used.now self.old.stop.now (take self.old.feed.waiting self.old.buffer.now)).state) }
        ensures maps_stay { OnErr result ((self.new.used.now ≡ self.old.used.now) × (self.new.stop.now ≡ self.old.stop.now)) }
        ensures feed_stays { OnErr result (self.new.feed ≡ self.old.feed) }
    {
        self.feed = turn(
            source,
            self.feed,
            self.used,
            self.stop,
            self.buffer,
            self.out,
        )?;
        Ok(())
    }

    // Plays the trace to its end, and calls `after` with each turn.
    pub fn play_all<R: Read, F: FnMut(&Play<'a>) -> io::Result<()>>(
        &mut self,
        source: &mut R,
        mut after: F,
    ) -> io::Result<()>
        requires { F.IsAlwaysCallable after }
    {
        // Bounds the loop for the checker: nothing proves that a file ends.
        for _ in 0..u64::MAX {
            self.turn(source)?;
            after(self)?;
            if self.feed.done {
                break;
            }
        }
        Ok(())
    }
}
