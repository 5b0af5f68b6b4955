// Bypass bins and raw bits.
ghost use Rattle.std.specs.Prelude.{◌≡◌};
ghost use Rattle.bulmegart.specs.Records.{engine_of, behind_state};
ghost use Rattle.bulmegart_engine.specs.Exported.{bins_given};
ghost use Rattle.cabac.specs.Entries as entries;

use bulmegart::records::EngineState;
use bulmegart_engine::engine::BinsAnswer;

#[unsafe(no_mangle)]
pub extern "C" fn bulmegart_decode_bypass(payload: &[u8], state: EngineState) -> BinsAnswer
    ensures { result ≡ bins_given state (behind_state payload.now state (entries.bypass_bits payload.now (engine_of state) 1)) }
{
    bulmegart_bypass::bypass::bulmegart_decode_bypass(payload, state)
}

#[unsafe(no_mangle)]
pub extern "C" fn bulmegart_decode_bypass_bits(
    payload: &[u8],
    state: EngineState,
    count: u32,
) -> BinsAnswer
    ensures { result ≡ bins_given state (behind_state payload.now state (entries.bypass_bits payload.now (engine_of state) count)) }
{
    bulmegart_bypass::bypass::bulmegart_decode_bypass_bits(payload, state, count)
}

#[unsafe(no_mangle)]
pub extern "C" fn bulmegart_read_bits(payload: &[u8], state: EngineState, count: u32) -> BinsAnswer
    ensures { result ≡ bins_given state (behind_state payload.now state (entries.raw payload.now (engine_of state) count)) }
{
    bulmegart_bypass::bypass::bulmegart_read_bits(payload, state, count)
}
