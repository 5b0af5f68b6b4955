// How many lines were kept, lowered and dropped.

#[derive(Clone, Copy)]
pub struct Tally {
    pub kept: u64,
    pub lowered: u64,
    pub dropped: u64,
}
