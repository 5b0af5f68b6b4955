// What the two block readers answer.
ghost use Rattle.std.specs.Prelude.{◌≡◌};
ghost use Rattle.hevc_residual.specs.Answers.{found_seen};
ghost use Rattle.bulmegart_blocks.specs.Blocks.{found_given, no_found, block_given, list_given, read_says, list_says};

use bulmegart::records::{EngineState, flag_byte, rdpcm_number};
use hevc_residual::answers::{Found, Read, ReadList};

// What document 01 gives of a block beside its levels; zeros after a refusal.
#[repr(C)]
#[derive(Clone, Copy)]
pub struct BlockFound {
    pub skip: u8,
    pub rdpcm: u8,
    pub column: u32,
    pub row: u32,
    pub greatest: u32,
}

#[repr(C)]
#[derive(Clone, Copy)]
pub struct BlockAnswer {
    pub number: u32,
    pub found: BlockFound,
    pub state: EngineState,
}

#[repr(C)]
#[derive(Clone, Copy)]
pub struct ListAnswer {
    pub number: u32,
    pub found: BlockFound,
}

impl From<Found> for BlockFound {
    ghost from_gives = { λ f g. g ≡ found_given (found_seen f) };

    fn from(f: Found) -> BlockFound {
        BlockFound {
            skip: flag_byte(f.skip),
            rdpcm: rdpcm_number(f.rdpcm),
            column: f.column,
            row: f.row,
            greatest: f.greatest,
        }
    }
}

fn no_found() -> BlockFound
    ensures { result ≡ no_found }
{
    BlockFound {
        skip: 0,
        rdpcm: 0,
        column: 0,
        row: 0,
        greatest: 0,
    }
}

pub fn block_answer(r: Read, s: EngineState) -> BlockAnswer
    ensures { result ≡ block_given s (read_says r) }
{
    match r {
        Ok(b) => BlockAnswer {
            number: 0,
            found: b.found.into(),
            state: b.state.into(),
        },
        Err(n) => BlockAnswer {
            number: n,
            found: no_found(),
            state: s,
        },
    }
}

impl From<ReadList> for ListAnswer {
    ghost from_gives = { λ r a. a ≡ list_given (list_says r) };

    fn from(r: ReadList) -> ListAnswer {
        match r {
            Ok(f) => ListAnswer {
                number: 0,
                found: f.into(),
            },
            Err(n) => ListAnswer {
                number: n,
                found: no_found(),
            },
        }
    }
}
