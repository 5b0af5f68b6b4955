// Start and restart of the arithmetic engine, for C, and the answers of all its calls. Each answer holds document 01's number; after a refusal its state is the one handed in.
ghost use Rattle.std.specs.Prelude.{◌≡◌};
ghost use Rattle.cabac.specs.Entries.{state_says};
ghost use Rattle.cabac.specs.Entries as entries;
ghost use Rattle.bulmegart.specs.Records.{engine_of, no_state, behind_state};
ghost use Rattle.bulmegart_engine.specs.Exported.{state_given, state_no};

use bulmegart::records::{EngineState, state_handed};
use cabac::answers::State;
use cabac_engine::engine::{restart, start};

#[repr(C)]
#[derive(Clone, Copy)]
pub struct StateAnswer {
    pub number: u32,
    pub state: EngineState,
}

#[repr(C)]
#[derive(Clone, Copy)]
pub struct DecisionAnswer {
    pub number: u32,
    pub bin: u8,
    pub context: u8,
    pub state: EngineState,
}

#[repr(C)]
#[derive(Clone, Copy)]
pub struct BinsAnswer {
    pub number: u32,
    pub value: u32,
    pub state: EngineState,
}

// The rest of the payload: its first byte's place, and its length.
#[repr(C)]
#[derive(Clone, Copy)]
pub struct RestAnswer {
    pub number: u32,
    pub first: usize,
    pub length: usize,
}

pub fn state_answer(r: State, s: EngineState) -> StateAnswer
    ensures { result ≡ state_given s (state_says r) }
{
    match r {
        Ok(e) => StateAnswer {
            number: 0,
            state: e.into(),
        },
        Err(n) => StateAnswer {
            number: n,
            state: s,
        },
    }
}

pub fn state_number(r: State) -> u32
    ensures { result ≡ state_no r }
{
    match r {
        Ok(_) => 0,
        Err(n) => n,
    }
}

// A state of zeros, which every other call answers by 3.
fn no_state() -> EngineState
    ensures { result ≡ no_state }
{
    EngineState {
        range: 0,
        offset: 0,
        position: 0,
        ended: 0,
        past: 0,
    }
}

#[unsafe(no_mangle)]
pub extern "C" fn bulmegart_start(payload: &[u8]) -> StateAnswer
    ensures { result ≡ state_given no_state (entries.start payload.now) }
{
    state_answer(start(payload), no_state())
}

#[unsafe(no_mangle)]
pub extern "C" fn bulmegart_restart(payload: &[u8], state: EngineState) -> StateAnswer
    ensures { result ≡ state_given state (behind_state payload.now state (entries.restart payload.now (engine_of state))) }
{
    let n = state_handed(payload, state);
    if n != 0 {
        return state_answer(Err(n), state);
    }
    state_answer(restart(payload, state.into()), state)
}
