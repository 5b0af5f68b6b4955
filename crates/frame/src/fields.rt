// A frame's fields: 8 bytes for log2 size, luma (1) or chroma (0), scan, bit depth, QP, hiding (0 or 1) and the payload's length, then 130 initial
// values, then the payload.
ghost use Rattle.std.specs.Prelude.{◌≡◌, ◌≤◌, length};
ghost use Rattle.frame.specs.Frame.{params_of, flags_refusal};

use hevc_residual::params::{Params, all_off};

// The header's parameters; other options are off.
pub fn params(bytes: &[u8]) -> Params
    requires { 6 ≤ length bytes.now }
    ensures { result ≡ params_of bytes.now }
{
    let log2 = bytes[0] as u32;
    let luma = bytes[1] == 1;
    let scan = bytes[2] as u32;
    let depth = bytes[3] as u32;
    let hiding = bytes[5] == 1;
    all_off(log2, luma, scan, depth, hiding)
}

// 4: a luma or hiding byte above 1.
pub fn flags_refusal(bytes: &[u8]) -> u32
    requires { 6 ≤ length bytes.now }
    ensures { result ≡ flags_refusal bytes.now }
{
    if 1 < bytes[1] {
        return 4;
    }
    if 1 < bytes[5] {
        return 4;
    }
    0
}
