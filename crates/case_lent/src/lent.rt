// Memory that is lent: marked before a call, up to a count, and looked at behind it.

// How many bytes a payload, a list and a room have at most. The longest list of a block has 71,088.
pub const LIST: usize = 73728;

// What each place holds before the call; no level has it.
pub const MARK: i32 = 1431655765;

// What each byte of a room holds before the call.
pub const BLANK: u8 = 255;

// The first places, or bytes of a room, to be written to; all where there are no more.
pub fn front<T>(places: &mut [T], n: usize) -> &mut [T] {
    let least = n.min(places.len());
    &mut places[..least]
}

// The first to be read.
pub fn first_of<T>(places: &[T], n: usize) -> &[T] {
    &places[..n.min(places.len())]
}

// Whether every place from one on, and before another, holds the value.
pub fn holds(block: &[i32], from: usize, to: usize, value: i32) -> bool {
    for i in from..to {
        if block.len() <= i {
            return false;
        }
        if block[i] != value {
            return false;
        }
    }
    true
}

pub fn is_blank_from(room: &[u8; LIST], from: usize) -> bool {
    for i in from..LIST {
        if room[i] != BLANK {
            return false;
        }
    }
    true
}
