// What a frame is answered, and what is refused before its block is read.
ghost use Rattle.std.specs.Prelude.{◌≡◌, ◌≤◌, length};
ghost use Rattle.frame.specs.Verdict.{checks_of};

use crate::fields::{flags_refusal, params};
use cabac_checks::checks::payload_refusal;
use hevc_checks::checks::parameter_refusal;

// Of a frame's block: its greatest magnitude and the bits past the end.
#[derive(Clone, Copy)]
pub struct Judged {
    pub greatest: u32,
    pub past: u32,
}

// Those, or the number of the refusal.
pub type Verdict = Result<Judged, u32>;

// 1, 4
pub fn checks(bytes: &[u8]) -> u32
    requires { 138 ≤ length bytes.now }
    ensures { result ≡ checks_of bytes.now }
{
    let a = payload_refusal(&bytes[138..]);
    if a != 0 {
        return a;
    }
    let b = flags_refusal(bytes);
    if b != 0 {
        return b;
    }
    let block = [0i32; 1024];
    parameter_refusal(params(bytes), &block)
}
