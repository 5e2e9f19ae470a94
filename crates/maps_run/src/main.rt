// Runs `bits`, `slots` and `runs` on vectors, over maps of a few words. For single bits and ranges, `stdout` has what the Rust's functions
// answer; for the rest, what a map kept bit by bit and a search unit by unit find.
#![tactic(auto)]

ghost use Rattle.std.specs.Prelude.{◌<◌};

use runs::ranges::BitVectorRangeIterator;
use std::{fmt, io};

// Words, each with a space before it.
#[derive(Clone, Copy)]
struct Words<'a>(&'a [u32]);

impl fmt::Display for Words<'_> {
    fn fmt<W: fmt::Write>(&self, f: &mut fmt::Formatter<W>) -> fmt::Result {
        for word in self.0 {
            write!(f, " {word}")?;
        }
        Ok(())
    }
}

// ---- bits

const PATTERNS: [[u32; 3]; 4] = [
    [0, 0, 0],
    [4294967295, 4294967295, 4294967295],
    [2863311530, 1431655765, 4042322160],
    [2147483648, 1, 2147483649],
];

// Writes `fill P I C W0 W1 W2` and `clear P I C W0 W1 W2` of map number `p`, if it has that many bits.
fn range(rt: &impl Print, p: usize, map: [u32; 3], index: usize, count: usize) -> io::Result<()> {
    if index <= 96 && count <= 96 - index {
        let mut filled = map;
        bits::fill::bit_vector_fill(&mut filled, index, count);
        println!(rt; "fill {p} {index} {count}{}", Words(&filled))?;
        let mut cleared = map;
        bits::fill::bit_vector_clear(&mut cleared, index, count);
        println!(rt; "clear {p} {index} {count}{}", Words(&cleared))?;
    }
    Ok(())
}

fn ranges(rt: &impl Print, p: usize, map: [u32; 3]) -> io::Result<()> {
    for index in [0, 1, 15, 30, 31, 32, 33, 63, 64, 65, 94, 95] {
        for count in [0, 1, 2, 31, 32, 33, 64, 65, 96] {
            range(rt, p, map, index, count)?;
        }
    }
    Ok(())
}

// Returns the map with that bit so.
fn put(mut map: [u32; 3], index: usize, value: bool) -> [u32; 3]
    requires { index < 96 }
{
    bits::bit_vector_set_bit(&mut map, index, value);
    map
}

// Writes `get P I B`, `set P I W0 W1 W2`, `unset P I W0 W1 W2` and `first P I ONE ZERO`, the first bits from `index` on that are 1 and 0.
fn single(rt: &impl Print, p: usize, map: [u32; 3], index: usize) -> io::Result<()> {
    if index < 96 {
        let bit = bits::bit_vector_get_bit(&map, index);
        println!(rt; "get {p} {index} {}", bit as u8)?;
        println!(rt; "set {p} {index}{}", Words(&put(map, index, true)))?;
        println!(rt; "unset {p} {index}{}", Words(&put(map, index, false)))?;
        let one = bits::index::bit_vector_index_of(&map, index, true);
        let zero = bits::index::bit_vector_index_of(&map, index, false);
        println!(rt; "first {p} {index} {one} {zero}")?;
    }
    Ok(())
}

fn singles(rt: &impl Print, p: usize, map: [u32; 3]) -> io::Result<()> {
    for index in [0, 1, 30, 31, 32, 33, 63, 64, 65, 94, 95] {
        single(rt, p, map, index)?;
    }
    Ok(())
}

// ---- slots: a map of six words, three slots of two

// Writes `mark SLOT AT N W0 W1 W2 W3 W4 W5`, or `unmark ..`.
fn change(
    rt: &impl Print,
    map: &mut [u32; 6],
    value: bool,
    slot: usize,
    at: usize,
    n: usize,
) -> io::Result<()> {
    if slot < 3 && at <= 64 && n <= 64 - at {
        let word = if value {
            slots::mark(map, slot, 2, at, n);
            "mark"
        } else {
            slots::unmark(map, slot, 2, at, n);
            "unmark"
        };
        println!(rt; "{word} {slot} {at} {n}{}", Words(map))?;
    }
    Ok(())
}

// Writes `slot SLOT W0 W1`.
fn part(rt: &impl Print, map: &[u32; 6], slot: usize) -> io::Result<()> {
    if slot < 3 {
        println!(rt; "slot {slot}{}", Words(slots::slot(map, slot, 2)))?;
    }
    Ok(())
}

// Marks and unmarks units of a map whose words are all `word` at first, and then writes each slot.
fn history(rt: &impl Print, word: u32) -> io::Result<()> {
    let mut map = [word; 6];
    for (value, slot, at, n) in [
        (true, 0, 0, 1),
        (true, 0, 31, 2),
        (true, 1, 0, 64),
        (true, 2, 5, 40),
        (false, 1, 30, 4),
        (false, 1, 63, 1),
        (false, 2, 6, 37),
        (true, 2, 63, 1),
        (true, 2, 64, 0),
        (false, 0, 32, 1),
        (false, 0, 0, 64),
        (true, 0, 63, 1),
        (true, 1, 33, 1),
        (false, 2, 0, 0),
        (false, 1, 0, 32),
    ] {
        change(rt, &mut map, value, slot, at, n)?;
    }
    for slot in 0..3 {
        part(rt, &map, slot)?;
    }
    Ok(())
}

// ---- runs

// A one is a used unit.
const USED: [[u32; 3]; 8] = [
    // all free
    [0, 0, 0],
    // all used
    [0xffff_ffff, 0xffff_ffff, 0xffff_ffff],
    // every second used
    [0xaaaa_aaaa, 0xaaaa_aaaa, 0xaaaa_aaaa],
    // only 8 to 15 free
    [0xffff_00ff, 0xffff_ffff, 0xffff_ffff],
    // only 8 to 11 free
    [0xffff_f0ff, 0xffff_ffff, 0xffff_ffff],
    // only 30 to 69 free, over both borders of words
    [0x3fff_ffff, 0, 0xffff_ffc0],
    // only 0 to 3, 31 and 32, 60 to 66 and 95 free
    [0x7fff_fff0, 0x0fff_fffe, 0x7fff_fff8],
    // of no order
    [0x9e37_79b9, 0x7f4a_7c15, 0xf39c_c060],
];

// Writes `search P S E N`, and ` at I`, ` tight FIRST LAST LONGEST` or ` full`.
fn search(
    rt: &impl Print,
    p: usize,
    map: &[u32; 3],
    start: usize,
    end: usize,
    n: usize,
) -> io::Result<()> {
    if start > 96 || end > 96 || n == 0 {
        return Ok(());
    }
    match runs::window::search_window(map, start, end, n) {
        runs::Search::At(i) => println!(rt; "search {p} {start} {end} {n} at {i}"),
        runs::Search::Tight(first, last, longest) => println!(rt;
            "search {p} {start} {end} {n} tight {first} {last} {longest}"
        ),
        runs::Search::Full => println!(rt; "search {p} {start} {end} {n} full"),
    }
}

fn run(rt: &impl Print, start: usize, end: usize) -> io::Result<()> {
    print!(rt; " {start}-{end}")
}

// Writes the runs that a walk yields.
fn walk(rt: &impl Print, words: &[u32], start: usize, end: usize) -> io::Result<()> {
    if words.len() == 3 && start <= 96 && end <= 96 {
        for r in BitVectorRangeIterator::new(words, start, end) {
            run(rt, r.start, r.end)?;
        }
    }
    Ok(())
}

// Writes `runs P S E`, and ` s-e` for each run.
fn walked(rt: &impl Print, p: usize, map: &[u32; 3], start: usize, end: usize) -> io::Result<()> {
    print!(rt; "runs {p} {start} {end}")?;
    walk(rt, map, start, end)?;
    println!(rt)
}

fn both(rt: &impl Print, p: usize, map: &[u32; 3], start: usize, end: usize) -> io::Result<()> {
    for n in [1, 5, 33] {
        search(rt, p, map, start, end, n)?;
    }
    walked(rt, p, map, start, end)
}

// Searches and walks in each window between two of these units.
fn windows(rt: &impl Print, p: usize, map: &[u32; 3]) -> io::Result<()> {
    let edges = [0, 1, 4, 8, 12, 31, 32, 33, 40, 63, 64, 65, 95, 96];
    for start in edges {
        for end in edges {
            both(rt, p, map, start, end)?;
        }
    }
    Ok(())
}

fn main(rt: HostRuntime) -> io::Result<()> {
    for (p, map) in PATTERNS.iter().enumerate() {
        ranges(&rt, p, *map)?;
    }
    for (p, map) in PATTERNS.iter().enumerate() {
        singles(&rt, p, *map)?;
    }
    history(&rt, 0)?;
    history(&rt, 4294967295)?;
    for (p, map) in USED.iter().enumerate() {
        windows(&rt, p, map)?;
    }
    Ok(())
}
