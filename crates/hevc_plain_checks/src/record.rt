// A plain record of parameters, from what is left to say of a block.
ghost use Rattle.std.specs.Prelude.{◌≡◌};
ghost use Rattle.cabac.specs.Numbers.{checked};
ghost use Rattle.hevc_plain.specs.Plain.{limits_refusal, plain_record};
ghost use Rattle.hevc_plain_checks.specs.Record.{made_says};

use crate::checks::plain_refusal;
use cabac_checks::checks::passed;
use hevc_residual::params::Params;

// 4, of size and scan
fn check_limits(log2: u32, scan: u32) -> Result<(), u32>
    ensures { result ≡ checked (limits_refusal log2 scan) }
{
    if log2 < 2 {
        return Err(4);
    }
    if 5 < log2 {
        return Err(4);
    }
    if 2 < scan {
        return Err(4);
    }
    Ok(())
}

// 8 bits and no option of the range extensions, or the number of the refusal: 4 and 24 of size and scan, as the entry points give them.
pub fn plain_params(
    log2: u32,
    luma: bool,
    scan: u32,
    hiding: bool,
    skip_allowed: bool,
    lossless: bool,
    inter: bool,
) -> Result<Params, u32>
    ensures { made_says result ≡ plain_record log2 luma scan hiding skip_allowed lossless inter }
{
    check_limits(log2, scan)?;
    let p = Params {
        log2,
        luma,
        scan,
        depth: 8,
        hiding,
        skip_allowed,
        lossless,
        persistent: false,
        skip_context: false,
        explicit_rdpcm: false,
        implicit_rdpcm: false,
        inter,
        aligning: false,
        extended: false,
    };
    let statistics = [0u8; 4];
    passed(plain_refusal(p, &statistics))?;
    Ok(p)
}
