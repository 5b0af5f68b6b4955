// The numbers of what is handed in with a block: 4 and 3 of parameters, contexts and statistics.
ghost use Rattle.std.specs.Prelude.{◌≡◌};
ghost use Rattle.hevc_residual.specs.Numbers.{parameter_refusal};
ghost use Rattle.hevc_checks.specs.ChecksAgree.{above_refusal, bins_checks};

use hevc_residual::params::Params;
use hevc_sizes::sizes::area_of;

// 4
pub fn parameter_refusal(p: Params, block: &[i32]) -> u32
    ensures { result ≡ parameter_refusal p block.now }
{
    if p.log2 < 2 {
        return 4;
    }
    if 5 < p.log2 {
        return 4;
    }
    if 2 < p.scan {
        return 4;
    }
    if p.depth < 8 {
        return 4;
    }
    if 16 < p.depth {
        return 4;
    }
    if block.len() < area_of(p.log2) {
        return 4;
    }
    0
}

// 3, of bytes that are at most `most`. None ends the loop, so that LLVM looks at several at once.
pub fn above_refusal(bytes: &[u8], most: u8) -> u32
    ensures { result ≡ above_refusal most bytes.now }
{
    let mut above = false;
    for byte in bytes {
        above |= most < *byte;
    }
    if above { 3 } else { 0 }
}

// 4, 3
pub fn bins_checks(stats: &[u8], p: Params, block: &[i32]) -> u32
    ensures { result ≡ bins_checks stats.now p block.now }
{
    let a = parameter_refusal(p, block);
    if a != 0 {
        return a;
    }
    above_refusal(stats, 84)
}
