// What is refused before a block is read into a kept one, and what becomes of the summary behind it.
ghost use Rattle.std.specs.Prelude.{◌≡◌, true, ◌≤◌};
ghost use Rattle.hevc_summary.specs.Entries.{touched, other_form, block_refusal, read_refusal};
ghost use Rattle.hevc_summary.specs.Agree.{read_says, list_says};

use cabac_checks::checks::payload_refusal;
use hevc_checks::checks::parameter_refusal;
use hevc_counts::counts::form_refusal;
use hevc_magnitudes::magnitudes::range_bits;
use hevc_residual::answers::{Read, ReadList};
use hevc_residual::params::Params;
use hevc_summary::kept::Form;

// 4
fn other_form(f: Form, p: Params) -> u32
    requires { p.depth ≤ 16 }
    ensures { result ≡ other_form f p }
{
    if f.log2 != p.log2 {
        return 4;
    }
    let bits = range_bits(p);
    if f.bits != bits {
        return 4;
    }
    0
}

// 4. As a number: its callers answer ListInto or ReadInto, in which `?` cannot end, so a Result would be no plainer.
pub fn block_refusal(f: Form, p: Params, levels: &[i32]) -> u32
    ensures { result ≡ block_refusal f p levels.now }
{
    let a = parameter_refusal(p, levels);
    if a != 0 {
        return a;
    }
    let b = form_refusal(f, levels);
    if b != 0 {
        return b;
    }
    other_form(f, p)
}

// 1, 2, 4, as a number for the same reason.
pub fn read_refusal(f: Form, bytes: &[u8], p: Params, levels: &[i32]) -> u32
    ensures { result ≡ read_refusal f bytes.now p levels.now }
{
    let a = payload_refusal(bytes);
    if a != 0 {
        return a;
    }
    block_refusal(f, p, levels)
}

pub fn read_came(r: Read) -> bool
    ensures { result ≡ touched (read_says r) }
{
    match r {
        Ok(_) => true,
        Err(n) => 6 < n,
    }
}

pub fn list_came(r: ReadList) -> bool
    ensures { result ≡ touched (list_says r) }
{
    match r {
        Ok(_) => true,
        Err(m) => 6 < m,
    }
}
