// What stands between blanks. Where a block stands as `show` prints it, its bars and brackets are blanks too.
ghost use Rattle.std.specs.Prelude.{◌≤◌, ◌<◌};

fn is_mark(b: u8) -> bool {
    match b {
        b'|' | b'[' | b']' => true,
        _ => false,
    }
}

// A carriage return ends lines of some editors.
fn is_blank(b: u8, marks: bool) -> bool {
    match b {
        b' ' | b'\t' | b'\r' => true,
        _ => marks & is_mark(b),
    }
}

// The first place from a place on that is no blank, or the end.
pub fn start_of(s: &[u8], from: usize, marks: bool) -> usize
    ensures { from ≤ result }
{
    for at in from..s.len() {
        if !is_blank(s[at], marks) {
            return at;
        }
    }
    from.max(s.len())
}

// `show` leaves no blank before a sign where cells are narrow.
fn is_end(b: u8, marks: bool, first: bool) -> bool {
    if is_blank(b, marks) {
        return true;
    }
    if first {
        return false;
    }
    marks & (b == b'-')
}

// The place behind what begins at a place.
pub fn end_of(s: &[u8], at: usize, marks: bool) -> usize
    ensures { at ≤ result }
{
    for to in at..s.len() {
        if is_end(s[to], marks, to == at) {
            return to;
        }
    }
    at.max(s.len())
}
