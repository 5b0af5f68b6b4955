// Scans of a residual block: orders of places (H.265 6.5.3 to 6.5.5), and numbers of places. Crate hevc_significance has the contexts of sig_coeff_flag.
#![tactic(auto)]

pub mod numbers; // numbers.rt: the number of a place, by formula
pub mod orders; // orders.rt: the places in order, as nested constant arrays
