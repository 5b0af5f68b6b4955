// What the bench links: alignment, and the rest of the payload.
#![tactic(auto)]

pub mod align; // align.rt: alignment of range and position, and the rest of the payload, for C
