// Where the scale's contexts begin: for each of the two chroma components four of the value, then for each one of the sign.
use hevc_residual::layout::BLOCK_CONTEXTS;

pub const VALUE: usize = BLOCK_CONTEXTS;

pub const SIGN: usize = VALUE + 2 * 4;
