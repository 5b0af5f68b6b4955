// What a bench with plain cameras links: plain records as a function that C and Rust call, and what its readers and writer promise.
#![tactic(auto)]

pub mod plain; // plain.rt: a plain record
