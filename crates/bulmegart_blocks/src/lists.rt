// What the writer of bins is handed, and what it answers.
ghost use Rattle.std.specs.Prelude.{◌≡◌};
ghost use Rattle.cabac.specs.Numbers.{◌or_else◌};
ghost use Rattle.bulmegart.specs.Records.{flag_refusal, params_flags};
ghost use Rattle.hevc_residual.specs.Answers.{written_says};
ghost use Rattle.bulmegart_blocks.specs.Lists.{choice_refusal, choice_of, write_given};

use bulmegart::records::{BlockParams, flag_refusal, or_else, params_flags};
use hevc_residual::answers::Written;
use hevc_residual::params::Rdpcm;

// The list's length; 0 after a refusal.
#[repr(C)]
#[derive(Clone, Copy)]
pub struct WriteAnswer {
    pub number: u32,
    pub length: usize,
}

// RDPCM: 0 none, 1 direction 0, 2 direction 1; above that 4.
fn choice_refusal(b: u8) -> u32
    ensures { result ≡ choice_refusal b }
{
    if 2 < b { 4 } else { 0 }
}

pub fn choice_of(b: u8) -> Rdpcm
    ensures { result ≡ choice_of b }
{
    if b == 0 {
        return Rdpcm::None;
    }
    if b == 1 {
        return Rdpcm::Horizontal;
    }
    Rdpcm::Vertical
}

// 4 of what should be a flag or a choice
pub fn write_handed(p: BlockParams, skip: u8, rdpcm: u8) -> u32
    ensures { result ≡ params_flags p or_else flag_refusal skip or_else choice_refusal rdpcm }
{
    or_else(
        params_flags(p),
        or_else(flag_refusal(skip), choice_refusal(rdpcm)),
    )
}

impl From<Written> for WriteAnswer {
    ghost from_gives = { λ r a. a ≡ write_given (written_says r) };

    fn from(r: Written) -> WriteAnswer {
        match r {
            Ok(n) => WriteAnswer {
                number: 0,
                length: n,
            },
            Err(n) => WriteAnswer {
                number: n,
                length: 0,
            },
        }
    }
}
