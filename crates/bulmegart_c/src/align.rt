// Alignment of range and position, and the rest of the payload.
ghost use Rattle.std.specs.Prelude.{◌≡◌};
ghost use Rattle.bulmegart.specs.Records.{engine_of, behind_state};
ghost use Rattle.bulmegart_engine.specs.Exported.{state_given, rest_given};
ghost use Rattle.cabac.specs.Entries as entries;

use bulmegart::records::EngineState;
use bulmegart_engine::engine::{RestAnswer, StateAnswer};

#[unsafe(no_mangle)]
pub extern "C" fn bulmegart_align_bypass(payload: &[u8], state: EngineState) -> StateAnswer
    ensures { result ≡ state_given state (behind_state payload.now state (entries.align_bypass payload.now (engine_of state))) }
{
    bulmegart_align::align::bulmegart_align_bypass(payload, state)
}

#[unsafe(no_mangle)]
pub extern "C" fn bulmegart_byte_align(payload: &[u8], state: EngineState) -> StateAnswer
    ensures { result ≡ state_given state (behind_state payload.now state (entries.byte_align payload.now (engine_of state))) }
{
    bulmegart_align::align::bulmegart_byte_align(payload, state)
}

// The rest of the payload behind byte alignment, as its first byte's place and its length.
#[unsafe(no_mangle)]
pub extern "C" fn bulmegart_rest(payload: &[u8], state: EngineState) -> RestAnswer
    ensures { result ≡ rest_given payload.now state }
{
    bulmegart_align::align::bulmegart_rest(payload, state)
}
