// Plays a trace from standard input, as the trace program does, and writes the state after each call's line, in the form of
// oracle/README.md ("Formats"), so that every field of every block can be compared with the original's. It ignores its argument.
#![tactic(auto)]

use block::Block;
use feed::Play;
use sizes::Pool;
use std::io;

// ---- lines

// Hashes `count` words of a map from word `base` on.
fn hash(words: &[u32], base: usize, count: u32) -> u32 {
    (0..count as usize).fold(0, |hash: u32, i| {
        let word = show::word_at(words, base.wrapping_add(i));
        hash.wrapping_mul(31).wrapping_add(word)
    })
}

fn pool_line(rt: &impl Print, k: usize, q: &Pool) -> io::Result<()> {
    let numbers = [
        k as u64,
        q.granularity,
        q.blocks as u64,
        q.empty as u64,
        q.area as u64,
        q.used as u64,
    ];
    show::line(rt, b"  pool", &numbers)
}

fn block_line(rt: &impl Print, age: usize, b: &Block, used: u32, stop: u32) -> io::Result<()> {
    let numbers = [
        age as u64,
        b.base,
        b.size,
        b.pool as u64,
        b.slot as u64,
        b.flags as u64,
        b.area as u64,
        b.used as u64,
        b.start as u64,
        b.end as u64,
        b.largest as u64,
        used as u64,
        stop as u64,
    ];
    show::line(rt, b"  block", &numbers)
}

// ---- a state

fn show_pools(rt: &impl Print, play: &Play) -> io::Result<()> {
    let s = &play.feed.state;
    for (k, q) in s.pools.iter().enumerate().take(s.poolcount) {
        pool_line(rt, k, q)?;
    }
    Ok(())
}

fn show_block(rt: &impl Print, play: &Play, age: usize, b: &Block) -> io::Result<()> {
    let base = show::slot_base(b.slot, play.feed.state.w);
    let count = b.area / 32;
    let used = hash(play.used, base, count);
    let stop = hash(play.stop, base, count);
    block_line(rt, age, b, used, stop)
}

fn show_blocks(rt: &impl Print, play: &Play) -> io::Result<()> {
    let s = &play.feed.state;
    for (age, b) in s.blocks.iter().enumerate().take(s.count) {
        show_block(rt, play, age, b)?;
    }
    Ok(())
}

fn show_state(rt: &impl Print, play: &Play) -> io::Result<()> {
    show::line(
        rt,
        b"  state",
        &[play.feed.state.live, play.feed.state.count as u64],
    )?;
    show_pools(rt, play)?;
    show_blocks(rt, play)
}

// ---- the trace

// Shows what a turn wrote, and the state if that was a call's line. The trace's last line has no state after it.
fn show_turn(rt: &impl Print, play: &Play) -> io::Result<()> {
    rt.write_all(play.lines())?;
    if 0 < play.feed.written && !play.feed.done {
        show_state(rt, play)?;
    }
    Ok(())
}

fn main(rt: HostRuntime) -> io::Result<()> {
    let mut used = feed::map_words();
    let mut stop = feed::map_words();
    let mut buffer = [0u8; 4096];
    // There is room for one line only, so that a turn plays at most one record.
    let mut out = [0u8; 80];
    let mut play = Play::new(&mut used, &mut stop, &mut buffer, &mut out);
    play.play_all(&mut rt.stdin(), |play| show_turn(&rt, play))
}
