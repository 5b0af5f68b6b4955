// Alignment of range and position, and the rest of the payload, for C. Each answer holds document 01's number; after a refusal its state is the one handed in.
ghost use Rattle.std.specs.Prelude.{◌≡◌};
ghost use Rattle.cabac.specs.Entries as entries;
ghost use Rattle.bulmegart.specs.Records.{engine_of, behind_state};
ghost use Rattle.bulmegart_engine.specs.Exported.{state_given, rest_given};

use bulmegart::records::{EngineState, state_handed};
use bulmegart_engine::engine::{RestAnswer, StateAnswer, state_answer, state_number};
use cabac_align::align::{align_bypass, byte_align, rest};

#[unsafe(no_mangle)]
pub extern "C" fn bulmegart_align_bypass(payload: &[u8], state: EngineState) -> StateAnswer
    ensures { result ≡ state_given state (behind_state payload.now state (entries.align_bypass payload.now (engine_of state))) }
{
    let n = state_handed(payload, state);
    if n != 0 {
        return state_answer(Err(n), state);
    }
    state_answer(align_bypass(payload, state.into()), state)
}

#[unsafe(no_mangle)]
pub extern "C" fn bulmegart_byte_align(payload: &[u8], state: EngineState) -> StateAnswer
    ensures { result ≡ state_given state (behind_state payload.now state (entries.byte_align payload.now (engine_of state))) }
{
    let n = state_handed(payload, state);
    if n != 0 {
        return state_answer(Err(n), state);
    }
    state_answer(byte_align(payload, state.into()), state)
}

// The rest of the payload behind byte alignment, as its first byte's place and its length.
#[unsafe(no_mangle)]
pub extern "C" fn bulmegart_rest(payload: &[u8], state: EngineState) -> RestAnswer
    ensures { result ≡ rest_given payload.now state }
{
    let n = state_handed(payload, state);
    if n != 0 {
        return RestAnswer {
            number: n,
            first: payload.len(),
            length: 0,
        };
    }
    let e = state.into();
    let length = rest(payload, e).len();
    RestAnswer {
        number: state_number(byte_align(payload, e)),
        first: payload.len() - length,
        length,
    }
}
