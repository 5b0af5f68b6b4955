// How many contexts a block has: up to the two of explicit_rdpcm_dir_flag. Those of other syntax stand behind them.
pub const BLOCK_CONTEXTS: usize = 118 + 2;
