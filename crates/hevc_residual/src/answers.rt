// The answers of the entry points that read and write a block: what was read or written, or the number of the refusal.
use crate::params::Rdpcm;
use bins::state::Engine;

// What document 01 gives of a block, beside its levels.
#[derive(Clone, Copy, PartialEq, Eq)]
pub struct Found {
    pub skip: bool,
    pub rdpcm: Rdpcm,
    // The greatest column and the greatest row that hold a level other than zero: hevc_reader/specs/Reach.antt has what a transform may leave out.
    pub column: u32,
    pub row: u32,
    pub greatest: u32,
}

// A block with the state behind it.
#[derive(Clone, Copy)]
pub struct ReadBlock {
    pub found: Found,
    pub state: Engine,
}

// A block from a payload, or the number of the refusal.
pub type Read = Result<ReadBlock, u32>;

// A block from a bin list, or the number of the refusal.
pub type ReadList = Result<Found, u32>;

// A list by its length, or the number of the refusal.
pub type Written = Result<usize, u32>;
