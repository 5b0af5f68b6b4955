// The state that a call of the block reader reaches, for C and Rust.
#![tactic(auto)]

ghost use Rattle.std.specs.Prelude.{◌≡◌};
ghost use Rattle.bulmegart_reached.specs.Handed.{reached_handed};

use bins::tags::CONTEXTS;
use bulmegart::records::{BlockParams, EngineState, block_handed};
use hevc_reached::entries::reached;

// The state reached, and the bits past the end that the call drew. Where a check refuses the call: the state handed in, and 0.
#[repr(C)]
#[derive(Clone, Copy)]
pub struct ReachedAnswer {
    pub state: EngineState,
    pub past: u32,
}

#[unsafe(no_mangle)]
pub extern "C" fn bulmegart_reached(
    payload: &[u8],
    state: EngineState,
    contexts: &[u8; CONTEXTS],
    statistics: &[u8; 4],
    params: BlockParams,
    levels: &[i32],
) -> ReachedAnswer
    ensures { result ≡ reached_handed payload.now state contexts.now statistics.now params levels.now }
{
    let n = block_handed(payload, state, params);
    if n != 0 {
        return ReachedAnswer { state, past: 0 };
    }
    let r = reached(
        payload,
        state.into(),
        contexts,
        statistics,
        params.into(),
        levels,
    );
    let e = r.state;
    ReachedAnswer {
        state: e.into(),
        past: r.past,
    }
}
