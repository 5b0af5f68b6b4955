// The entry point: records of parameters, one payload, one long buffer of levels cut into consecutive n·n parts.
// It takes anything: what document 01 does not accept is answered by its number.
use bins::state::Engine;

// How many blocks were done, the number of the refusal that stopped it or 0, and the state as the last block done left it.
// A Result would be no plainer: count and state are told of both.
#[derive(Clone, Copy)]
pub struct Tray {
    pub done: usize,
    pub number: u32,
    pub state: Engine,
}
