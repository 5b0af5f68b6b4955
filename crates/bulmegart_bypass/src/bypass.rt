// Bypass bins and raw bits, for C. Each answer holds document 01's number; after a refusal its state is the one handed in.
ghost use Rattle.std.specs.Prelude.{◌≡◌};
ghost use Rattle.cabac.specs.Entries as entries;
ghost use Rattle.bulmegart.specs.Records.{engine_of, behind_state};
ghost use Rattle.bulmegart_engine.specs.Exported.{bins_given};

use bulmegart::records::{EngineState, state_handed};
use bulmegart_bins::decode::bins_answer;
use bulmegart_engine::engine::BinsAnswer;
use cabac_bypass::bypass::{decode_bypass, decode_bypass_bits, read_bits};

#[unsafe(no_mangle)]
pub extern "C" fn bulmegart_decode_bypass(payload: &[u8], state: EngineState) -> BinsAnswer
    ensures { result ≡ bins_given state (behind_state payload.now state (entries.bypass_bits payload.now (engine_of state) 1)) }
{
    let n = state_handed(payload, state);
    if n != 0 {
        return bins_answer(Err(n), state);
    }
    bins_answer(decode_bypass(payload, state.into()), state)
}

#[unsafe(no_mangle)]
pub extern "C" fn bulmegart_decode_bypass_bits(
    payload: &[u8],
    state: EngineState,
    count: u32,
) -> BinsAnswer
    ensures { result ≡ bins_given state (behind_state payload.now state (entries.bypass_bits payload.now (engine_of state) count)) }
{
    let n = state_handed(payload, state);
    if n != 0 {
        return bins_answer(Err(n), state);
    }
    bins_answer(decode_bypass_bits(payload, state.into(), count), state)
}

#[unsafe(no_mangle)]
pub extern "C" fn bulmegart_read_bits(payload: &[u8], state: EngineState, count: u32) -> BinsAnswer
    ensures { result ≡ bins_given state (behind_state payload.now state (entries.raw payload.now (engine_of state) count)) }
{
    let n = state_handed(payload, state);
    if n != 0 {
        return bins_answer(Err(n), state);
    }
    bins_answer(read_bits(payload, state.into(), count), state)
}
