// Bits of the payload (H.265 7.2, read_bits), high bit first; past the end they are 1. Where four bytes are left, up to 16 are taken at once.
use crate::places::BitPlace;

// Bits as a number, the place behind them, and how many of them lie past the end: so many ones were supplied, and not read.
#[derive(Clone, Copy)]
pub struct Drawn {
    pub bits: u32,
    pub next: BitPlace,
    pub past: u32,
}
