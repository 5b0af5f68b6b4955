// The whole order before a payload is read: 1, 2, 4, 3, 6.
ghost use Rattle.std.specs.Prelude.{◌≡◌};
ghost use Rattle.cabac.specs.Numbers.{checked};
ghost use Rattle.hevc_residual.specs.Answers.{payload_checks};

use bins::state::Engine;
use cabac_checks::checks::{passed, payload_refusal, state_refusal};
use hevc_checks::checks::{above_refusal, parameter_refusal};
use hevc_residual::params::Params;

// 1, 2, 4, 3, 6
pub fn check_payload(
    bytes: &[u8],
    e: Engine,
    contexts: &[u8],
    stats: &[u8],
    p: Params,
    block: &[i32],
) -> Result<(), u32>
    ensures { result ≡ checked (payload_checks bytes.now e contexts.now stats.now p block.now) }
{
    passed(payload_refusal(bytes))?;
    passed(parameter_refusal(p, block))?;
    passed(state_refusal(bytes, e))?;
    passed(above_refusal(contexts, 127))?;
    passed(above_refusal(stats, 84))?;
    if e.ended {
        return Err(6);
    }
    Ok(())
}

// The same as a number, 0 where nothing is refused: for callers whose answer is no Result.
pub fn payload_checks(
    bytes: &[u8],
    e: Engine,
    contexts: &[u8],
    stats: &[u8],
    p: Params,
    block: &[i32],
) -> u32
    ensures { result ≡ payload_checks bytes.now e contexts.now stats.now p block.now }
{
    match check_payload(bytes, e, contexts, stats, p, block) {
        Ok(()) => 0,
        Err(n) => n,
    }
}
