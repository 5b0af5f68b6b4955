// A plain record from what is left to say.
ghost use Rattle.std.specs.Prelude.{◌≡◌};
ghost use Rattle.bulmegart_plain.specs.Plain.{plain_params};

use bulmegart_plain::plain::ParamsAnswer;

// A plain record.
#[unsafe(no_mangle)]
pub extern "C" fn bulmegart_plain_params(
    log2: u32,
    scan: u32,
    luma: u8,
    hiding: u8,
    skip_allowed: u8,
    lossless: u8,
    inter: u8,
) -> ParamsAnswer
    ensures { result ≡ plain_params log2 scan luma hiding skip_allowed lossless inter }
{
    bulmegart_plain::plain::bulmegart_plain_params(
        log2,
        scan,
        luma,
        hiding,
        skip_allowed,
        lossless,
        inter,
    )
}
