// Searches a window for a place: what `alloc` of the Rust does with the run walker in one block.
ghost use Rattle.std.specs.Prelude.{◌≡◌, ◌*◌, ◌^◌, ◌<◌, ◌≤◌, length};
ghost use Rattle.runs.specs.Window.{Sought};

use crate::Search;
use crate::ranges::BitVectorRangeIterator;

// The free runs that a search has passed: the first free unit, the end of the last run, and the length of the longest.
#[derive(Clone, Copy)]
struct Passed {
    first: usize,
    last: usize,
    longest: usize,
}

// Finds the lowest place of `n` free units in the window, or what the window tightens to.
pub fn search_window(words: &[u32], start: usize, end: usize, n: usize) -> Search
    requires { (start ≤ 32 * length words.now) × (end ≤ 32 * length words.now) × (length words.now < 2 ^ 32) × (0 < n) }
    ensures { Sought words.now start end n result }
{
    let mut runs = BitVectorRangeIterator::new(words, start, end);
    let mut passed: Option<Passed> = None;
    while let Some(run) = runs.next_range(n) {
        let length = run.end - run.start;
        if n <= length {
            return Search::At(run.start);
        }
        passed = Some(match passed {
            None => Passed {
                first: run.start,
                last: run.end,
                longest: length,
            },
            Some(p) => Passed {
                last: run.end,
                longest: p.longest.max(length),
                ..p
            },
        });
    }
    match passed {
        None => Search::Full,
        Some(p) => Search::Tight(p.first, p.last, p.longest),
    }
}
