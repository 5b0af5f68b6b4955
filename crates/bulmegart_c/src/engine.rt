// Start and restart of the arithmetic engine.
ghost use Rattle.std.specs.Prelude.{◌≡◌};
ghost use Rattle.bulmegart.specs.Records.{no_state, engine_of, behind_state};
ghost use Rattle.bulmegart_engine.specs.Exported.{state_given};
ghost use Rattle.cabac.specs.Entries as entries;

use bulmegart::records::EngineState;
use bulmegart_engine::engine::StateAnswer;

#[unsafe(no_mangle)]
pub extern "C" fn bulmegart_start(payload: &[u8]) -> StateAnswer
    ensures { result ≡ state_given no_state (entries.start payload.now) }
{
    bulmegart_engine::engine::bulmegart_start(payload)
}

#[unsafe(no_mangle)]
pub extern "C" fn bulmegart_restart(payload: &[u8], state: EngineState) -> StateAnswer
    ensures { result ≡ state_given state (behind_state payload.now state (entries.restart payload.now (engine_of state))) }
{
    bulmegart_engine::engine::bulmegart_restart(payload, state)
}
