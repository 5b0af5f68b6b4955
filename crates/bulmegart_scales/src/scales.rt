// The cross-component scale. After a refusal an answer's scale is 0.
ghost use Rattle.std.specs.Prelude.{◌≡◌};
ghost use Rattle.hevc_scale.specs.EntriesAgree.{read_says, bins_read};
ghost use Rattle.bulmegart_scales.specs.Scales.{scale_given, scale_list_given, scale_left, read_scale};

use bins::tags::CONTEXTS;
use bulmegart::records::{EngineState, state_handed};
use hevc_scale::entries::{FoundScale, Read, ReadList, read_scale};

#[repr(C)]
#[derive(Clone, Copy)]
pub struct ScaleAnswer {
    pub number: u32,
    pub scale: i32,
    pub state: EngineState,
}

#[repr(C)]
#[derive(Clone, Copy)]
pub struct ScaleListAnswer {
    pub number: u32,
    pub scale: i32,
}

fn scale_answer(r: Read, s: EngineState) -> ScaleAnswer
    ensures { result ≡ scale_given s (read_says r) }
{
    match r {
        Ok(FoundScale { scale, next }) => ScaleAnswer {
            number: 0,
            scale,
            state: next.into(),
        },
        Err(n) => ScaleAnswer {
            number: n,
            scale: 0,
            state: s,
        },
    }
}

impl From<ReadList> for ScaleListAnswer {
    ghost from_gives = { λ r a. a ≡ scale_list_given (bins_read r) };

    fn from(r: ReadList) -> ScaleListAnswer {
        match r {
            Ok(scale) => ScaleListAnswer { number: 0, scale },
            Err(number) => ScaleListAnswer { number, scale: 0 },
        }
    }
}

// The scale of a chroma component, from a payload.
#[unsafe(no_mangle)]
pub extern "C" fn bulmegart_read_scale(
    payload: &[u8],
    state: EngineState,
    contexts: &mut [u8; CONTEXTS],
    component: u32,
) -> ScaleAnswer
    ensures { scale_left result contexts.new ≡ read_scale payload.now state contexts.old component }
{
    let n = state_handed(payload, state);
    if n != 0 {
        return scale_answer(Err(n), state);
    }
    let r = read_scale(payload, state.into(), contexts, component);
    scale_answer(r, state)
}
