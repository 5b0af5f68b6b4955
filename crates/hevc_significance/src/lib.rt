// The contexts of sig_coeff_flag (H.265 9.3.4.2.5).
#![tactic(auto)]

pub mod significance; // significance.rt: by the neighbours and the place
