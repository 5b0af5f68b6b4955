// What 24 refuses, and what is looked at before a plain block is read.
ghost use Rattle.std.specs.Prelude.{◌≡◌};
ghost use Rattle.hevc_plain.specs.Plain.{plain_refusal};
ghost use Rattle.hevc_plain_checks.specs.PlainCode.{scan_refusal, plain_checks};

use hevc_checks::checks::{above_refusal, parameter_refusal};
use hevc_residual::params::Params;

// 24, of scan and size
fn scan_refusal(p: Params) -> u32
    ensures { result ≡ scan_refusal p }
{
    if p.scan == 0 {
        return 0;
    }
    if 3 < p.log2 {
        return 24;
    }
    0
}

// 24
pub fn plain_refusal(p: Params, stats: &[u8]) -> u32
    ensures { result ≡ plain_refusal p stats.now }
{
    if p.depth != 8 {
        return 24;
    }
    if scan_refusal(p) != 0 {
        return 24;
    }
    if p.persistent {
        return 24;
    }
    if p.skip_context {
        return 24;
    }
    if p.explicit_rdpcm {
        return 24;
    }
    if p.implicit_rdpcm {
        return 24;
    }
    if p.aligning {
        return 24;
    }
    if p.extended {
        return 24;
    }
    if above_refusal(stats, 0) != 0 {
        return 24;
    }
    0
}

// 4, 24
pub fn plain_checks(stats: &[u8], p: Params, block: &[i32]) -> u32
    ensures { result ≡ plain_checks stats.now p block.now }
{
    let a = parameter_refusal(p, block);
    if a != 0 {
        return a;
    }
    plain_refusal(p, stats)
}
