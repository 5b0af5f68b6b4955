// A decision and a terminate bin.
ghost use Rattle.std.specs.Prelude.{◌≡◌};
ghost use Rattle.bulmegart.specs.Records.{engine_of, behind_state};
ghost use Rattle.bulmegart_engine.specs.Exported.{decision_given, bins_given};
ghost use Rattle.cabac.specs.Entries as entries;

use bulmegart::records::EngineState;
use bulmegart_engine::engine::{BinsAnswer, DecisionAnswer};

#[unsafe(no_mangle)]
pub extern "C" fn bulmegart_decode_bin(
    payload: &[u8],
    state: EngineState,
    context: u8,
) -> DecisionAnswer
    ensures { result ≡ decision_given context state (behind_state payload.now state (entries.decision payload.now (engine_of state) context)) }
{
    bulmegart_bins::decode::bulmegart_decode_bin(payload, state, context)
}

#[unsafe(no_mangle)]
pub extern "C" fn bulmegart_decode_terminate(payload: &[u8], state: EngineState) -> BinsAnswer
    ensures { result ≡ bins_given state (behind_state payload.now state (entries.terminate payload.now (engine_of state))) }
{
    bulmegart_bins::decode::bulmegart_decode_terminate(payload, state)
}
