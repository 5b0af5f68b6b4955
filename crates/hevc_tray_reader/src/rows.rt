// A record of parameters, and what is found of a block, as rows of numbers: a slice of structs cannot be lent.
ghost use Rattle.std.specs.Prelude.{◌≡◌};
ghost use Rattle.hevc_tray.specs.Rows.{params_of, rdpcm_no, flags_refusal, rows_refusal};
ghost use Rattle.hevc_tray.specs.Seen.{row_of};

use hevc_checks::checks::above_refusal;
use hevc_residual::answers::Found;
use hevc_residual::params::{Params, Rdpcm};

// The parameters that a record means. No `From`: row and record are both of other crates.
pub fn params_of(row: [u8; 14]) -> Params
    ensures { result ≡ params_of row }
{
    Params {
        log2: row[0] as u32,
        luma: 0 < row[3],
        scan: row[1] as u32,
        depth: row[2] as u32,
        hiding: 0 < row[4],
        skip_allowed: 0 < row[5],
        lossless: 0 < row[6],
        persistent: 0 < row[7],
        skip_context: 0 < row[8],
        explicit_rdpcm: 0 < row[9],
        implicit_rdpcm: 0 < row[10],
        inter: 0 < row[11],
        aligning: 0 < row[12],
        extended: 0 < row[13],
    }
}

// 4: a flag above 1
pub fn flags_refusal(row: [u8; 14]) -> u32
    ensures { result ≡ flags_refusal row }
{
    if above_refusal(&row[3..14], 1) == 0 {
        0
    } else {
        4
    }
}

fn rdpcm_number(r: Rdpcm) -> u32
    ensures { result ≡ rdpcm_no r }
{
    match r {
        Rdpcm::None => 0,
        Rdpcm::Horizontal => 1,
        Rdpcm::Vertical => 2,
    }
}

// What is found of a block, as a row: no `From` either.
pub fn row_of(f: Found) -> [u32; 5]
    ensures { result ≡ row_of f }
{
    let rdpcm = rdpcm_number(f.rdpcm);
    [u32::from(f.skip), rdpcm, f.column, f.row, f.greatest]
}

// 4: a record with a flag above 1
pub fn rows_refusal(records: &[[u8; 14]]) -> u32
    ensures { result ≡ rows_refusal records.now }
{
    for record in records {
        if flags_refusal(*record) != 0 {
            return 4;
        }
    }
    0
}
