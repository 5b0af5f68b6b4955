// The arithmetic writer's steps (H.265 9.3.5), for any syntax: the definitions of the code, and a bin on the interval.
#![tactic(auto)]

pub mod coder; // coder.rt: a bin on the interval, before its bytes go out
