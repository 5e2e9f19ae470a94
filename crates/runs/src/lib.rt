// Walks over the runs of free units of a used map within a window, and searches a window for a place. A window is the units from `start` up
// to `end`, and is empty if `end` is not above `start`. Runs are clipped at both ends.
#![tactic(auto)]

pub mod ranges;
pub mod window;

// The result of a search in a window: the lowest place; or else the window's first free unit, the end of its last free run and the length
// of its longest; or that no unit is free.
#[derive(Clone, Copy)]
pub enum Search {
    At(usize),
    Tight(usize, usize, usize),
    Full,
}
