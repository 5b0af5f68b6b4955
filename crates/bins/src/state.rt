// The arithmetic engine's state, between calls and while a block is read.
use crate::places::{BitPlace, SourcePlace};

// Between calls: range, offset, position, an ended mark, and how many bits past the end were supplied since the first start, to 65,535.
#[derive(Clone, Copy, PartialEq, Eq)]
pub struct Engine {
    pub range: u32,
    pub offset: u32,
    pub position: BitPlace,
    pub ended: bool,
    pub past: u32,
}

// The engine's state while a block is read: what it is in between is no state to hand out. From a bin list only the place moves.
#[derive(Clone, Copy)]
pub struct Interval {
    pub range: u32,
    pub offset: u32,
    pub position: SourcePlace,
}

// Bins as a number, and the state behind them.
#[derive(Clone, Copy)]
pub struct Taken {
    pub value: u32,
    pub next: Interval,
}

// A refusal: its number, and the state at which it arose.
#[derive(Clone, Copy)]
pub struct Refusal {
    pub number: u32,
    pub at: Interval,
}

// Bins with the state behind them, or a refusal: the one lies where the other does, and a step stays small.
pub type Step = Result<Taken, Refusal>;
