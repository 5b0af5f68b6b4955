// The entry point: a block's bin list as a payload in a lent room. It takes anything: what is not accepted is answered by its number.
// Contexts are read only. The packing is every syntax's: it walks the list's entries, and knows no tree.
ghost use Rattle.std.specs.Prelude.{◌≡◌};
ghost use Rattle.packer.specs.IntoCode.{packing_says};
ghost use Rattle.h264_packer.specs.Entries.{pack_bins};
ghost use Rattle.h264_packer.specs.Promise.{ReadsBack};

use h264_reader::entries::{contexts_refusal, read_bins};
use packer::list::{Packing, pack_list};
use tables::decision_table;

// One block's list. The bin reader takes it or not; then it is packed by its own entries.
pub fn pack_bins(contexts: &[u8; 40], list: &[u8], room: &mut [u8]) -> Packing
    ensures { (packing_says result room.new ≡ pack_bins contexts.now list.now room.old) × ReadsBack contexts.now list.now room.old result room.new }
{
    let a = contexts_refusal(contexts);
    if a != 0 {
        return Err(a);
    }
    let mut block = [0i32; 16];
    if read_bins(list, &mut block).is_err() {
        return Err(13);
    }
    let table = decision_table();
    let mut first = *contexts;
    let mut again = *contexts;
    pack_list(&table, &mut first, &mut again, list, room)
}
