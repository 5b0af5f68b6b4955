// The magnitude of a level, as reader and writer both go by it: its range, the Rice parameter and the statistic behind it, the length of an escape.
#![tactic(auto)]

pub mod magnitudes; // magnitudes.rt: T and the range, Rice parameter, statistic, escapes
