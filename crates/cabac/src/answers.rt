// The answers of the entry points over the engine's state: what was read, or the number of the refusal.
use bins::state::Engine;

// A state, or the number of the refusal.
pub type State = Result<Engine, u32>;

// A bin with the packed context and the state behind it.
#[derive(Clone, Copy)]
pub struct DecidedBin {
    pub bin: bool,
    pub context: u8,
    pub state: Engine,
}

// A bin by its context, or the number of the refusal.
pub type Decision = Result<DecidedBin, u32>;

// Bins as a number with the state behind them.
#[derive(Clone, Copy)]
pub struct ReadBins {
    pub value: u32,
    pub state: Engine,
}

// Bins, or the number of the refusal.
pub type Bins = Result<ReadBins, u32>;
