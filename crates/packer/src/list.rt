// A bin list, written entry by entry. Its own entries say what each bin is: nothing is parsed again, and any syntax's list is written so.
ghost use Rattle.std.specs.Prelude.{◌≡◌, ◌+◌, ◌*◌, ◌/◌, ◌≤◌, ◌<◌, leb, length, get_or};
ghost use Rattle.tables.specs.Decisions.{decisions};
ghost use Rattle.bins.specs.Tags.{context_count};
ghost use Rattle.bins.specs.CodeLaws.{Packed};
ghost use Rattle.packing.specs.Pack.{kind_of, packed_entry, writing};
ghost use Rattle.packing.specs.Packs.{entries_most};
ghost use Rattle.packing.specs.Entries.{pack_into};
ghost use Rattle.packer_steps.specs.Register.{register_of, Steady};
ghost use Rattle.packer.specs.WalkLaws.{Laid};
ghost use Rattle.packer.specs.IntoCode.{packing_says};

use bins::tags::{ALIGNMENT, BYPASS, CONTEXTS};
use packer_bytes::bytes::{flush, put_out};
use packer_steps::coder::{Coder, align, bypass, decision};
use tables::decision_table;

// A payload by its length, or the number of the refusal.
pub type Packing = Result<usize, u32>;

// An entry's two bytes as a number, the low one first.
fn entry_number(list: &[u8], i: usize) -> u32
    requires { i + 1 < length list.now }
    ensures { result ≡ get_or list.now i 0 + 256 * get_or list.now (i + 1) 0 }
{
    u32::from(u16::from_le_bytes([list[i], list[i + 1]]))
}

// One entry in the register. A context that is not lent is 0 and stays so.
fn put_entry(table: &[u32; 512], contexts: &mut [u8], c: Coder, entry: u32) -> Coder
    requires { Steady c × Packed contexts.old × (table.now ≡ decisions) }
    ensures { (writing (register_of result) contexts.new ≡ packed_entry (kind_of entry) (writing (register_of c) contexts.old)) × (result.at ≡ c.at) }
{
    let bin = entry % 2;
    if entry < 2 * BYPASS {
        let number = (entry / 2) as usize;
        if number < contexts.len() {
            return decision(table, &mut contexts[number], c, bin);
        }
        let mut none: u8 = 0;
        return decision(table, &mut none, c, bin);
    }
    if entry == ALIGNMENT {
        return align(c);
    }
    bypass(c, bin)
}

// The whole list with its flush, into the room or only counted. The answer is the payload's length.
pub fn put_list(
    table: &[u32; 512],
    contexts: &mut [u8],
    list: &[u8],
    room: &mut [u8],
    writing: bool,
) -> usize
    requires { Packed contexts.old × (table.now ≡ decisions) × (length list.now ≤ 2 * entries_most + 1) }
    ensures { Laid room.old contexts.old writing list.now result room.new contexts.new }
{
    let mut c = Coder {
        low: 0,
        range: 510,
        bits: 9,
        at: 0,
    };
    for k in 0..list.len() / 2 {
        let entry = entry_number(list, 2 * k);
        let d = put_entry(table, contexts, c, entry);
        c = put_out(room, d, writing);
    }
    flush(room, c, writing)
}

// A list that a syntax reads. The payload is counted out before anything is written; contexts are used up twice, once for each time.
pub fn pack_into(
    table: &[u32; 512],
    contexts: &mut [u8],
    again: &mut [u8],
    list: &[u8],
    room: &mut [u8],
) -> Packing
    requires { Packed contexts.old × (again.old ≡ contexts.old) × (table.now ≡ decisions) × (length list.now ≤ 2 * entries_most + 1) }
    ensures { packing_says result room.new ≡ pack_into contexts.old list.now room.old }
{
    let n = put_list(table, contexts, list, room, false);
    if room.len() < n {
        return Err(12);
    }
    let written = put_list(table, again, list, room, true);
    Ok(written)
}

// Whether a payload fits for certain: it has nine bits, and at most seven for each entry.
fn surely_fits(list: usize, room: usize) -> bool
    requires { list ≤ 2 * entries_most + 1 }
    ensures { result ≡ leb ((list / 2 * 7 + 16) / 8) room }
{
    (list / 2 * 7 + 16) / 8 <= room
}

// The same, and where the payload fits for certain nothing is counted.
pub fn pack_list(
    table: &[u32; 512],
    contexts: &mut [u8],
    again: &mut [u8],
    list: &[u8],
    room: &mut [u8],
) -> Packing
    requires { Packed contexts.old × (again.old ≡ contexts.old) × (table.now ≡ decisions) × (length list.now ≤ 2 * entries_most + 1) }
    ensures { packing_says result room.new ≡ pack_into contexts.old list.now room.old }
{
    if surely_fits(list.len(), room.len()) {
        let written = put_list(table, contexts, list, room, true);
        return Ok(written);
    }
    pack_into(table, contexts, again, list, room)
}

// The same from as many contexts as HEVC lends, which stay as they are.
pub fn pack_from(contexts: &[u8; CONTEXTS], list: &[u8], room: &mut [u8]) -> Packing
    requires { Packed contexts.now × (length contexts.now ≡ context_count) × (length list.now ≤ 2 * entries_most + 1) }
    ensures { packing_says result room.new ≡ pack_into contexts.now list.now room.old }
{
    let table = decision_table();
    let mut first = *contexts;
    let mut again = *contexts;
    pack_list(&table, &mut first, &mut again, list, room)
}
