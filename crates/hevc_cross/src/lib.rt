// Cross-component prediction (H.265 7.3.8.12): the scale's syntax, what its entry points answer, and that reader and writer fit one another. A crate of
// definitions and laws, in specs.
#![tactic(auto)]
