// Searches one block for free units.
ghost use Rattle.std.specs.Prelude.{◌≡◌, ◌<◌, ◌≤◌, length};
ghost use Rattle.block.specs.Record.{Placed};
ghost use Rattle.block.specs.Search.{worth_searching, tightened, look_into};

use crate::Block;
use runs::Search;

// True if enough units are free, and `largest` is long enough or out of date.
#[tactic(auto, unfolding(crate::specs::Search::worth_searching))]
fn worth_searching(b: Block, n: u32) -> bool
    requires { b.used ≤ b.area }
    ensures { result ≡ worth_searching b n }
{
    n <= b.area - b.used && (b.flags & Block::FLAG_DIRTY != 0 || n <= b.largest)
}

// Tightens the window to the free units in it: from the first one, up to the end of the last run; `longest` is the longest run's length.
fn tightened(b: Block, first: u32, last: u32, longest: u32) -> Block
    ensures { result ≡ tightened b first last longest }
{
    Block {
        start: first,
        end: last,
        largest: longest,
        flags: b.flags & !Block::FLAG_DIRTY,
        ..b
    }
}

// Finds the lowest `n` free units in a row in a block's window. Where there are none it hands back the record, its window tightened if the
// search saw a free unit.
pub fn look_into(b: Block, used: &[u32], w: usize, n: u32) -> Result<u32, Block>
    requires { Placed b w (length used.now) (length used.now) × (0 < n) }
    ensures { result ≡ look_into w b used.now n }
{
    if !worth_searching(b, n) {
        return Err(b);
    }
    let part = slots::slot(used, b.slot, w);
    let got = runs::window::search_window(part, b.start as usize, b.end as usize, n as usize);
    match got {
        Search::At(i) => Ok(i as u32),
        Search::Tight(first, last, longest) => {
            Err(tightened(b, first as u32, last as u32, longest as u32))
        }
        Search::Full => Err(b),
    }
}
