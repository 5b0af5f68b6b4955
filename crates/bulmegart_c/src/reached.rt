// The state that a call of the block reader reaches.
ghost use Rattle.std.specs.Prelude.{◌≡◌};
ghost use Rattle.bulmegart_reached.specs.Handed.{reached_handed};

use bins::tags::CONTEXTS;
use bulmegart::records::{BlockParams, EngineState};
use bulmegart_reached::ReachedAnswer;

#[unsafe(no_mangle)]
pub extern "C" fn bulmegart_reached(
    payload: &[u8],
    state: EngineState,
    contexts: &[u8; CONTEXTS],
    statistics: &[u8; 4],
    params: BlockParams,
    levels: &[i32],
) -> ReachedAnswer
    ensures { result ≡ reached_handed payload.now state contexts.now statistics.now params levels.now }
{
    bulmegart_reached::bulmegart_reached(payload, state, contexts, statistics, params, levels)
}
