// What a line adds to the figures: the block of the frame that it spells, or the number that it is refused by.
ghost use Rattle.std.specs.Prelude.{◌≡◌, ◌≤◌, length};
ghost use Rattle.book_lines.specs.Lines.{line_of};
ghost use Rattle.frame.specs.Verdict.{verdict};
ghost use Rattle.morning_add.specs.Sums.{framed, line_event};
ghost use Rattle.morning_add.specs.Agree.{event_of};

use book_lines::form::refusal;
use frame_judge::judge::read_frame;
use morning_add::event::{BlockRead, LineRead, size_of};
use text_octets::octets::hex_bytes;

fn frame_read(bytes: &[u8], block: &mut [i32; 1024]) -> LineRead
    requires { 138 ≤ length bytes.now }
    ensures { event_of result block.new ≡ framed (verdict bytes.now) bytes.now }
{
    let log2 = size_of(bytes);
    let v = read_frame(bytes, block)?;
    Ok(BlockRead { log2, past: v.past })
}

pub fn read_line(line: &[u8], finished: bool, block: &mut [i32; 1024]) -> LineRead
    ensures { event_of result block.new ≡ line_event (line_of line.now finished) }
{
    let n = refusal(line, finished);
    if n != 0 {
        return Err(n);
    }
    let mut bytes = [0u8; 4234];
    hex_bytes(line, &mut bytes);
    let k = line.len() / 2;
    frame_read(&bytes[..k], block)
}
