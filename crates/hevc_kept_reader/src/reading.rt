// Reading into a kept block, from a payload or from a bin list: the reader's answer, and what is kept counted anew wherever the reader came to the
// block, which after 7, 8 and 13 is zeros.
ghost use Rattle.std.specs.Prelude.{◌≡◌, true};
ghost use Rattle.hevc_summary.specs.Summary.{Keeps};
ghost use Rattle.hevc_summary.specs.Entries.{touched, read_kept, list_kept};
ghost use Rattle.hevc_summary.specs.Agree.{kept_of, read_says, list_says, kept_read, kept_list};

use bins::state::Engine;
use bins::tags::CONTEXTS;
use hevc_counts::counts::count_all;
use hevc_kept_checks::checks::{block_refusal, list_came, read_came, read_refusal};
use hevc_reader::entries::{read_bins, residual_coding};
use hevc_residual::params::Params;
use hevc_summary::kept::{Form, Whole};
use hevc_summary::reading::{ListInto, ReadInto};

// A block from a payload. The summary is told of a refusal too, so the answer is no Result and the number is tested, not handed up by `?`.
pub fn read_kept(
    bytes: &[u8],
    e: Engine,
    contexts: &mut [u8; CONTEXTS],
    stats: &mut [u8; 4],
    p: Params,
    levels: &mut [i32],
    counts: &mut [u32; 64],
    sums: &mut [u64; 64],
    f: Form,
    whole: Whole,
) -> ReadInto
    ensures { (kept_read result contexts.new stats.new levels.new counts.new sums.new ≡ read_kept f bytes.now e contexts.old stats.old p (kept_of levels.old counts.old sums.old whole)) × Keeps f.log2 (touched (read_says result.read) ≡ true) (kept_of levels.old counts.old sums.old whole) (kept_of levels.new counts.new sums.new result.whole) }
{
    let n = read_refusal(f, bytes, p, levels);
    if n != 0 {
        return ReadInto {
            read: Err(n),
            whole,
        };
    }
    let read = residual_coding(bytes, e, contexts, stats, p, levels);
    if read_came(read) {
        let after = count_all(levels, counts, sums, f.log2);
        return ReadInto { read, whole: after };
    }
    ReadInto { read, whole }
}

// A block from a bin list, which it must end. Its refusals are tested for the same reason.
pub fn read_kept_bins(
    bytes: &[u8],
    stats: &mut [u8; 4],
    p: Params,
    levels: &mut [i32],
    counts: &mut [u32; 64],
    sums: &mut [u64; 64],
    f: Form,
    whole: Whole,
) -> ListInto
    ensures { (kept_list result stats.new levels.new counts.new sums.new ≡ list_kept f bytes.now stats.old p (kept_of levels.old counts.old sums.old whole)) × Keeps f.log2 (touched (list_says result.read) ≡ true) (kept_of levels.old counts.old sums.old whole) (kept_of levels.new counts.new sums.new result.whole) }
{
    let n = block_refusal(f, p, levels);
    if n != 0 {
        return ListInto {
            read: Err(n),
            whole,
        };
    }
    let read = read_bins(bytes, stats, p, levels);
    if list_came(read) {
        let after = count_all(levels, counts, sums, f.log2);
        return ListInto { read, whole: after };
    }
    ListInto { read, whole }
}
