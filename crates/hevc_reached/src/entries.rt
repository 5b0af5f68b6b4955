// The state that a call of the block reader reaches, where it refuses by 7 or 8 too, and the bits past the end that the call draws.
// It takes anything and changes nothing: the block is read once more, into places of its own.
ghost use Rattle.std.specs.Prelude.{◌≡◌, false};
ghost use Rattle.bins.specs.EngineRuns.{state_of};
ghost use Rattle.bins.specs.Raised as raised;
ghost use Rattle.hevc_residual.specs.Residual.{residual};
ghost use Rattle.hevc_residual.specs.Limits.{Accepted, Statistics};
ghost use Rattle.hevc_elements.specs.Agree.{Reads, from};
ghost use Rattle.hevc_reached.specs.Reading.{reached_all};

use bins::state::{Engine, Interval};
use bins::tags::CONTEXTS;
use cabac_state::engine::{open, settle};
use hevc_payload_checks::checks::payload_checks;
use hevc_read_into::into::read_into;
use hevc_residual::params::Params;
use tables::decision_table;

// The state reached, and how many bits past the end this call drew, up to 65,535. Where a check refuses the call, that is the state handed in, and none.
#[derive(Clone, Copy)]
pub struct ReachedAt {
    pub state: Engine,
    pub past: u32,
}

// The state with no total.
fn unmarked(e: Engine) -> Engine
    ensures { result ≡ raised.unmarked e }
{
    let position = e.position;
    Engine {
        range: e.range,
        offset: e.offset,
        position,
        ended: e.ended,
        past: 0,
    }
}

// The block read to its end, wherever that is.
fn read_to_end(
    bytes: &[u8],
    contexts: &[u8; CONTEXTS],
    stats: &[u8; 4],
    p: Params,
    x: Interval,
) -> Interval
    requires { Reads false bytes.now x contexts.now × Accepted p × Statistics stats.now }
    ensures { result ≡ (state_of (from false bytes.now (residual p stats.now) x contexts.now)).interval }
{
    let table = decision_table();
    let mut cs = *contexts;
    let mut st = *stats;
    let mut levels = [0i32; 1024];
    let r = read_into(false, &table, &mut cs, &mut st, bytes, p, &mut levels, x);
    match r {
        Ok(read) => read.next,
        Err(refusal) => refusal.at,
    }
}

pub fn reached(
    bytes: &[u8],
    e: Engine,
    contexts: &[u8; CONTEXTS],
    stats: &[u8; 4],
    p: Params,
    block: &[i32],
) -> ReachedAt
    ensures { result ≡ reached_all bytes.now e contexts.now stats.now p block.now }
{
    let n = payload_checks(bytes, e, contexts, stats, p, block);
    if n != 0 {
        return ReachedAt { state: e, past: 0 };
    }
    let x = read_to_end(bytes, contexts, stats, p, open(e));
    let state = settle(bytes, e, x);
    let fresh = settle(bytes, unmarked(e), x);
    ReachedAt {
        state,
        past: fresh.past,
    }
}
