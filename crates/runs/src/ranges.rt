// The walk over the runs of free units in a window: `BitVectorRangeIterator` of the Rust.
ghost use Rattle.std.specs.Prelude.{◌≡◌, ℕ, ◌+◌, ◌-◌, ◌*◌, ◌^◌, ◌<◌, ◌≤◌, length, OnSome};
ghost use Rattle.bits.specs.Walk.{Seen};
ghost use Rattle.runs.specs.Walk.{Stands, ClearIn, Ends};

use std::ops::Range;

// A walk holds the words that it reads, and stands at word `at`: the ones of `word` are its free units still to visit. `end` is the window's.
#[derive(Clone, Copy)]
pub struct BitVectorRangeIterator<'a> {
    pub slice: &'a [u32],
    pub at: usize,
    pub word: u32,
    pub end: usize,
    ghost stands: { Stands slice.now at end },
}

impl<'a> BitVectorRangeIterator<'a> {
    ghost use Rattle.runs.specs.Steps.{HasSeen, SameWindow, StepAnswer, left};

    // Starts a walk at the window's start. In an empty window it may stand after the last word, and then reads no word.
    pub fn new(slice: &'a [u32], start: usize, end: usize) -> Self
        requires { (start ≤ 32 * length slice.now) × (end ≤ 32 * length slice.now) × (length slice.now < 2 ^ 32) }
        ensures seen { Seen slice.now end start 0 result.at result.word }
        ensures words { result.slice.now ≡ slice.now }
        ensures window_end { result.end ≡ end }
    {
        let at = start / 32;
        let low = (start % 32) as u32;
        let word = if at * 32 < end {
            !slice[at] & (u32::MAX << low)
        } else {
            0
        };
        BitVectorRangeIterator {
            slice,
            at,
            word,
            end,
        }
    }

    // Moves to the first word that has free units left, or to the window's last word.
    fn skip(&mut self)
        ensures seen { (p : ℕ) → HasSeen self.old p → HasSeen self.new p }
        ensures word_or_last { self.new.word ≡ 0 → self.new.end ≤ 32 * self.new.at + 32 }
        ensures same_window { SameWindow self.old self.new }
        ensures no_more_left { left self.new ≤ left self.old }
    {
        while self.word == 0 {
            let next = self.at + 1;
            if self.end <= next * 32 {
                return;
            }
            self.at = next;
            self.word = !self.slice[next];
        }
    }

    // Follows the run of free units that starts at unit `from`, in the walk's word, to its end, or until it is as long as `hint`. All units
    // of that word from `from` on are free.
    fn extend(&mut self, from: usize, hint: usize) -> usize
        requires { (from < self.old.end) × (32 * self.old.at ≤ from) × (from < 32 * self.old.at + 32) }
        ensures run_end { ClearIn self.old.slice.now from (32 * self.old.at + 32) self.old.end → Ends self.old.slice.now from self.old.end hint result self.new.at self.new.word }
        ensures same_window { SameWindow self.old self.new }
        ensures fewer_left { 0 < self.old.word → left self.new < left self.old }
    {
        self.word = 0;
        let mut to = (self.at * 32 + 32).min(self.end);
        while to - from < hint {
            if to == self.end {
                return to;
            }
            self.at += 1;
            let w = self.slice[self.at];
            if w != 0 {
                let j = w.trailing_zeros();
                self.word = !w & (u32::MAX << j);
                return (self.at * 32 + j as usize).min(self.end);
            }
            to = (self.at * 32 + 32).min(self.end);
        }
        to
    }

    // Returns the next run of free units, or None if none is left. As in the Rust, it may stop at a run of `hint` units and not look for its
    // end: a caller who asks for `hint` units has found them.
    pub fn next_range(&mut self, hint: usize) -> Option<Range<usize>>
        ensures answer { StepAnswer self.old self.new hint result }
        ensures same_window { SameWindow self.old self.new }
        ensures fewer_left { OnSome result (left self.new < left self.old) }
    {
        self.skip();
        if self.word == 0 {
            return None;
        }
        let i = self.word.trailing_zeros();
        let from = self.at * 32 + i as usize;
        if self.end <= from {
            return None;
        }
        let used = !self.word & (u32::MAX << i);
        if used == 0 {
            let to = self.extend(from, hint);
            return Some(from..to);
        }
        let j = used.trailing_zeros();
        let to = (self.at * 32 + j as usize).min(self.end);
        self.word &= u32::MAX << j;
        Some(from..to)
    }
}

impl<'a> Iterator for BitVectorRangeIterator<'a> {
    ghost use Rattle.std.specs.Iterator.{at_most};
    ghost use Rattle.runs.specs.Steps.{SameWindow, StepAnswer, left};

    type Item = Range<usize>;

    ghost next_gives = { λ w r v. StepAnswer w v (2 ^ 64 - 1) r × SameWindow w v };

    ghost remaining = { λ w. at_most (left w) };

    // Returns the next run, whole.
    fn next(&mut self) -> Option<Range<usize>> {
        self.next_range(usize::MAX)
    }
}
