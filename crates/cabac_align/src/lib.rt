// The entry points of the arithmetic engine of H.265 (CABAC) that align, and the rest of the payload. Each takes anything that it can be handed.
#![tactic(auto)]

pub mod align; // align.rt: the range, the position and the payload aligned
