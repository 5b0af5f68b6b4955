// The verdict on a frame.
ghost use Rattle.std.specs.Prelude.{◌≡◌, ◌≤◌, length};
ghost use Rattle.cabac.specs.Numbers.{accepted};
ghost use Rattle.frame.specs.Verdict.{no_levels, started_verdict, started_levels, verdict, levels_of};

use bins::state::Engine;
use bins::tags::CONTEXTS;
use cabac_checks::checks::passed;
use cabac_engine::engine::start;
use cabac_init::contexts::init_contexts;
use frame::fields::params;
use frame::judge::{Judged, Verdict, checks};
use hevc_reader::entries::residual_coding;

// The block, from the state behind the start. Contexts and statistics are the frame's own.
fn read_from(bytes: &[u8], e: Engine, block: &mut [i32; 1024]) -> Verdict
    requires { (138 ≤ length bytes.now) × (block.old ≡ no_levels) }
    ensures { (result ≡ started_verdict bytes.now (accepted e)) × (block.new ≡ started_levels bytes.now (accepted e)) }
{
    let mut contexts = [0u8; CONTEXTS];
    let mut stats = [0u8; 4];
    let p = params(bytes);
    init_contexts(&mut contexts, &mut stats, &bytes[8..138], bytes[4]);
    let b = residual_coding(&bytes[138..], e, &mut contexts, &mut stats, p, block)?;
    Ok(Judged {
        greatest: b.found.greatest,
        past: b.state.past,
    })
}

// 1, 4, 5, then the reader's own numbers. The levels of the block are left, whatever stood there; 0 throughout where it is refused.
pub fn read_frame(bytes: &[u8], block: &mut [i32; 1024]) -> Verdict
    requires { 138 ≤ length bytes.now }
    ensures { (result ≡ verdict bytes.now) × (block.new ≡ levels_of bytes.now) }
{
    *block = [0i32; 1024];
    passed(checks(bytes))?;
    let e = start(&bytes[138..])?;
    read_from(bytes, e, block)
}

// The verdict alone.
pub fn judge(bytes: &[u8]) -> Verdict
    requires { 138 ≤ length bytes.now }
    ensures { result ≡ verdict bytes.now }
{
    let mut block = [0i32; 1024];
    read_frame(bytes, &mut block)
}
