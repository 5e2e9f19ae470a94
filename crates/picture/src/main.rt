// Draws what a trace leaves: plays it as the trace program does, but writes no lines. For each block, oldest first, it writes the numbers
// and the units in rows of 64: `#` where a span starts, `=` inside one, `.` where a unit is free. It only counts rows that are all alike.
#![tactic(auto)]

use block::Block;
use feed::Play;
use std::{fmt, io};

// ---- units

// What a unit is: free, a span's first, or a later one of a span.
#[derive(Clone, Copy, PartialEq, Eq)]
enum Mark {
    Free,
    Start,
    Body,
}

impl fmt::Display for Mark {
    fn fmt<W: fmt::Write>(&self, f: &mut fmt::Formatter<W>) -> fmt::Result {
        f.write_str(match self {
            Mark::Free => ".",
            Mark::Start => "#",
            Mark::Body => "=",
        })
    }
}

// A slot's part of the maps, from the word `base` on.
#[derive(Clone, Copy)]
struct Slot<'a> {
    used: &'a [u32],
    stop: &'a [u32],
    base: usize,
}

impl Slot<'_> {
    // Reads a unit's bit in one of the maps.
    fn bit_at(&self, words: &[u32], unit: usize) -> bool {
        let word = show::word_at(words, self.base.wrapping_add(unit / 32));
        word >> (unit % 32) & 1 == 1
    }

    // Returns the mark of a unit. A span starts at a used unit that is the first, or follows a free unit or a stop bit.
    fn mark(&self, unit: usize) -> Mark {
        if !self.bit_at(self.used, unit) {
            Mark::Free
        } else if unit == 0
            || !self.bit_at(self.used, unit - 1)
            || self.bit_at(self.stop, unit - 1)
        {
            Mark::Start
        } else {
            Mark::Body
        }
    }

    // True if the units from `from` up to `to` all have that mark.
    fn alike(&self, from: usize, to: usize, mark: Mark) -> bool {
        (from..to).all(|unit| self.mark(unit) == mark)
    }
}

// ---- a block

// A slot's units from `from` up to `to`.
#[derive(Clone, Copy)]
struct Row<'a> {
    slot: Slot<'a>,
    from: usize,
    to: usize,
}

impl Row<'_> {
    // Returns Free or Body if the units are all free or all inside a span, else Start: a row to draw.
    fn kind(&self) -> Mark {
        if self.slot.alike(self.from, self.to, Mark::Free) {
            Mark::Free
        } else if self.slot.alike(self.from, self.to, Mark::Body) {
            Mark::Body
        } else {
            Mark::Start
        }
    }
}

impl fmt::Display for Row<'_> {
    fn fmt<W: fmt::Write>(&self, f: &mut fmt::Formatter<W>) -> fmt::Result {
        for unit in self.from..self.to {
            write!(f, "{}", self.slot.mark(unit))?;
        }
        Ok(())
    }
}

// Writes how many rows of a kind were counted and not drawn.
fn passed(rt: &impl Print, kind: Mark, rows: u64) -> io::Result<()> {
    if 0 < rows {
        println!(rt; "\t{kind} in rows of 64: {rows}")?;
    }
    Ok(())
}

fn draw_units(rt: &impl Print, slot: Slot<'_>, area: u32) -> io::Result<()> {
    let end = area as usize;
    let mut last = Mark::Free;
    let mut rows: u64 = 0;
    for number in 0..end.div_ceil(64) {
        let from = number * 64;
        let to = (from + 64).min(end);
        let row = Row { slot, from, to };
        let kind = row.kind();
        if kind != last {
            passed(rt, last, rows)?;
            rows = 0;
        }
        if kind == Mark::Start {
            println!(rt; " {from}\t{row}")?;
        } else {
            rows = rows.wrapping_add(1);
        }
        last = kind;
    }
    passed(rt, last, rows)
}

fn draw_numbers(rt: &impl Print, age: usize, b: &Block) -> io::Result<()> {
    let empty = if b.is_empty() { ", empty" } else { "" };
    let dirty = if b.flags & Block::FLAG_DIRTY != 0 {
        ", dirty"
    } else {
        ""
    };
    println!(rt;
        "block {age}: address {}, size {}, pool {}, slot {}, used {} of {}, window {} to {}, largest {}{empty}{dirty}",
        b.base, b.size, b.pool, b.slot, b.used, b.area, b.start, b.end, b.largest
    )
}

fn draw_block(rt: &impl Print, play: &Play, age: usize, b: &Block) -> io::Result<()> {
    draw_numbers(rt, age, b)?;
    let slot = Slot {
        used: play.used,
        stop: play.stop,
        base: show::slot_base(b.slot, play.feed.state.w),
    };
    draw_units(rt, slot, b.area)
}

fn draw(rt: &impl Print, play: &Play) -> io::Result<()> {
    let s = &play.feed.state;
    println!(rt;
        "live spans {}, blocks {}, slots {} of {} words",
        s.live, s.count, s.slots, s.w
    )?;
    for (age, b) in s.blocks.iter().enumerate().take(s.count) {
        draw_block(rt, play, age, b)?;
    }
    Ok(())
}

fn main(rt: HostRuntime) -> io::Result<()> {
    let mut source = feed::open(&rt)?;
    let mut used = feed::map_words();
    let mut stop = feed::map_words();
    let mut buffer = [0u8; 4096];
    let mut out = [0u8; 65536];
    let mut play = Play::new(&mut used, &mut stop, &mut buffer, &mut out);
    play.play_all(&mut source, |_| Ok(()))?;
    draw(&rt, &play)
}
