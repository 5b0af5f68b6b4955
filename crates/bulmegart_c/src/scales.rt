// The cross-component scale out of a payload.
ghost use Rattle.std.specs.Prelude.{◌≡◌};
ghost use Rattle.bulmegart_scales.specs.Scales.{scale_left, read_scale};

use bins::tags::CONTEXTS;
use bulmegart::records::EngineState;
use bulmegart_scales::scales::ScaleAnswer;

// The scale of a chroma component, from a payload.
#[unsafe(no_mangle)]
pub extern "C" fn bulmegart_read_scale(
    payload: &[u8],
    state: EngineState,
    contexts: &mut [u8; CONTEXTS],
    component: u32,
) -> ScaleAnswer
    ensures { scale_left result contexts.new ≡ read_scale payload.now state contexts.old component }
{
    bulmegart_scales::scales::bulmegart_read_scale(payload, state, contexts, component)
}
