// A decision and a terminate bin, for C. Each answer holds document 01's number; after a refusal its state is the one handed in.
ghost use Rattle.std.specs.Prelude.{◌≡◌};
ghost use Rattle.cabac.specs.Entries.{decision_says, bins_say};
ghost use Rattle.cabac.specs.Entries as entries;
ghost use Rattle.bulmegart.specs.Records.{engine_of, behind_state};
ghost use Rattle.bulmegart_engine.specs.Exported.{decision_given, bins_given};

use bulmegart::records::{EngineState, flag_byte, state_handed};
use bulmegart_engine::engine::{BinsAnswer, DecisionAnswer};
use cabac::answers::{Bins, Decision};
use cabac_bins::decode::{decode_bin, decode_terminate};

fn decision_answer(r: Decision, context: u8, s: EngineState) -> DecisionAnswer
    ensures { result ≡ decision_given context s (decision_says r) }
{
    match r {
        Ok(d) => DecisionAnswer {
            number: 0,
            bin: flag_byte(d.bin),
            context: d.context,
            state: d.state.into(),
        },
        Err(n) => DecisionAnswer {
            number: n,
            bin: 0,
            context,
            state: s,
        },
    }
}

pub fn bins_answer(r: Bins, s: EngineState) -> BinsAnswer
    ensures { result ≡ bins_given s (bins_say r) }
{
    match r {
        Ok(b) => BinsAnswer {
            number: 0,
            value: b.value,
            state: b.state.into(),
        },
        Err(n) => BinsAnswer {
            number: n,
            value: 0,
            state: s,
        },
    }
}

#[unsafe(no_mangle)]
pub extern "C" fn bulmegart_decode_bin(
    payload: &[u8],
    state: EngineState,
    context: u8,
) -> DecisionAnswer
    ensures { result ≡ decision_given context state (behind_state payload.now state (entries.decision payload.now (engine_of state) context)) }
{
    let n = state_handed(payload, state);
    if n != 0 {
        return decision_answer(Err(n), context, state);
    }
    decision_answer(decode_bin(payload, state.into(), context), context, state)
}

#[unsafe(no_mangle)]
pub extern "C" fn bulmegart_decode_terminate(payload: &[u8], state: EngineState) -> BinsAnswer
    ensures { result ≡ bins_given state (behind_state payload.now state (entries.terminate payload.now (engine_of state))) }
{
    let n = state_handed(payload, state);
    if n != 0 {
        return bins_answer(Err(n), state);
    }
    bins_answer(decode_terminate(payload, state.into()), state)
}
