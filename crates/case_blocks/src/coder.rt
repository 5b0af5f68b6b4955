// The two that code a block: any block, or a plain camera's, which refuses what is not plain.
use bins::state::Engine;
use case_text::given::Lent;
use hevc_plain_coding::entries::{read_bins_plain, residual_coding_plain};
use hevc_plain_writer::entries::write_bins_plain;
use hevc_reader::entries::{read_bins, residual_coding};
use hevc_residual::answers::{Read, ReadList, Written};
use hevc_residual::params::{Params, Rdpcm};
use hevc_writer::entries::write_bins;

#[derive(Clone, Copy, PartialEq, Eq)]
pub enum Coder {
    Full,
    Plain,
}

impl Coder {
    pub(crate) fn read(
        self,
        bytes: &[u8],
        e: Engine,
        lent: &mut Lent,
        p: Params,
        block: &mut [i32],
    ) -> Read {
        match self {
            Coder::Full => residual_coding(bytes, e, &mut lent.contexts, &mut lent.stats, p, block),
            Coder::Plain => residual_coding_plain(
                bytes,
                e,
                &mut lent.contexts,
                &mut lent.stats,
                p,
                block,
            ),
        }
    }

    pub(crate) fn read_list(
        self,
        bins: &[u8],
        stats: &mut [u8; 4],
        p: Params,
        block: &mut [i32],
    ) -> ReadList {
        match self {
            Coder::Full => read_bins(bins, stats, p, block),
            Coder::Plain => read_bins_plain(bins, stats, p, block),
        }
    }

    pub(crate) fn write(
        self,
        p: Params,
        stats: &mut [u8; 4],
        block: &[i32],
        skip: bool,
        rdpcm: Rdpcm,
        room: &mut [u8],
    ) -> Written {
        match self {
            Coder::Full => write_bins(p, stats, block, skip, rdpcm, room),
            Coder::Plain => write_bins_plain(p, stats, block, skip, rdpcm, room),
        }
    }
}
