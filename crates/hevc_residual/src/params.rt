// What a block is read and written with.
ghost use Rattle.std.specs.Prelude.{◌≡◌};
ghost use Rattle.hevc_residual.specs.AllOff.{all_off};

// What the slice and the coding unit have settled before the block; numbers out of document 01's limits are answered by 4.
#[derive(Clone, Copy)]
pub struct Params {
    pub log2: u32, // the block is n by n, n = 2^log2
    pub luma: bool, // cIdx is 0
    pub scan: u32, // scanIdx: 0 up-right diagonal, 1 rows, 2 columns
    pub depth: u32, // bit depth of the component
    pub hiding: bool, // sign_data_hiding_enabled_flag
    pub skip_allowed: bool, // transform_skip_flag is coded, unless lossless
    pub lossless: bool, // cu_transquant_bypass_flag
    pub persistent: bool, // persistent_rice_adaptation_enabled_flag
    pub skip_context: bool, // transform_skip_context_enabled_flag
    pub explicit_rdpcm: bool, // explicit_rdpcm_enabled_flag
    pub implicit_rdpcm: bool, // implicit RDPCM enabled, in an intra block of mode 10 or 26
    pub inter: bool, // CuPredMode is MODE_INTER
    pub aligning: bool, // cabac_bypass_alignment_enabled_flag
    pub extended: bool, // extended_precision_processing_flag
}

// Every option off but sign hiding, which is said.
pub fn all_off(log2: u32, luma: bool, scan: u32, depth: u32, hiding: bool) -> Params
    ensures { result ≡ all_off log2 luma scan depth hiding }
{
    Params {
        log2,
        luma,
        scan,
        depth,
        hiding,
        skip_allowed: false,
        lossless: false,
        persistent: false,
        skip_context: false,
        explicit_rdpcm: false,
        implicit_rdpcm: false,
        inter: false,
        aligning: false,
        extended: false,
    }
}

// Explicit RDPCM: an enum, since a number above 2 would be no choice of the syntax.
#[derive(Clone, Copy, PartialEq, Eq)]
pub enum Rdpcm {
    None, // explicit_rdpcm_flag is 0, or not coded
    Horizontal, // explicit_rdpcm_dir_flag is 0
    Vertical, // explicit_rdpcm_dir_flag is 1
}
