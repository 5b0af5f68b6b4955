// A plain record from what is left to say.
ghost use Rattle.std.specs.Prelude.{◌≡◌};
ghost use Rattle.hevc_plain_checks.specs.Record.{made_says};
ghost use Rattle.bulmegart_plain.specs.Plain.{params_given, record_flags, record_given, plain_params};

use bulmegart::records::{BlockParams, flag_byte, flag_refusal, is_set, or_else};
use hevc_plain_checks::record::plain_params;
use hevc_residual::params::Params;

// A plain record, all zeros after a refusal.
#[repr(C)]
#[derive(Clone, Copy)]
pub struct ParamsAnswer {
    pub number: u32,
    pub params: BlockParams,
}

// No `From`: both types are other crates', and a crate converts only to or from its own.
fn params_given(p: Params) -> BlockParams
    ensures { result ≡ params_given p }
{
    BlockParams {
        log2: p.log2,
        scan: p.scan,
        depth: p.depth,
        luma: flag_byte(p.luma),
        hiding: flag_byte(p.hiding),
        skip_allowed: flag_byte(p.skip_allowed),
        lossless: flag_byte(p.lossless),
        persistent: flag_byte(p.persistent),
        skip_context: flag_byte(p.skip_context),
        explicit_rdpcm: flag_byte(p.explicit_rdpcm),
        implicit_rdpcm: flag_byte(p.implicit_rdpcm),
        inter: flag_byte(p.inter),
        aligning: flag_byte(p.aligning),
        extended: flag_byte(p.extended),
    }
}

impl From<Result<Params, u32>> for ParamsAnswer {
    ghost from_gives = { λ r a. a ≡ record_given (made_says r) };

    fn from(r: Result<Params, u32>) -> ParamsAnswer {
        match r {
            Ok(p) => ParamsAnswer {
                number: 0,
                params: params_given(p),
            },
            Err(n) => ParamsAnswer {
                number: n,
                params: BlockParams {
                    log2: 0,
                    scan: 0,
                    depth: 0,
                    luma: 0,
                    hiding: 0,
                    skip_allowed: 0,
                    lossless: 0,
                    persistent: 0,
                    skip_context: 0,
                    explicit_rdpcm: 0,
                    implicit_rdpcm: 0,
                    inter: 0,
                    aligning: 0,
                    extended: 0,
                },
            },
        }
    }
}

// 4 of what should be a flag
fn record_flags(luma: u8, hiding: u8, skip_allowed: u8, lossless: u8, inter: u8) -> u32
    ensures { result ≡ record_flags luma hiding skip_allowed lossless inter }
{
    let from_lossless = or_else(flag_refusal(lossless), flag_refusal(inter));
    let from_skip_allowed = or_else(flag_refusal(skip_allowed), from_lossless);
    let from_hiding = or_else(flag_refusal(hiding), from_skip_allowed);
    or_else(flag_refusal(luma), from_hiding)
}

// A plain record.
#[unsafe(no_mangle)]
pub extern "C" fn bulmegart_plain_params(
    log2: u32,
    scan: u32,
    luma: u8,
    hiding: u8,
    skip_allowed: u8,
    lossless: u8,
    inter: u8,
) -> ParamsAnswer
    ensures { result ≡ plain_params log2 scan luma hiding skip_allowed lossless inter }
{
    let n = record_flags(luma, hiding, skip_allowed, lossless, inter);
    if n != 0 {
        return ParamsAnswer::from(Err(n));
    }
    let r = plain_params(
        log2,
        is_set(luma),
        scan,
        is_set(hiding),
        is_set(skip_allowed),
        is_set(lossless),
        is_set(inter),
    );
    ParamsAnswer::from(r)
}
