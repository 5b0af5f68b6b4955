// Places in the caller's bytes, a type for each unit: bytes and bits of a payload, converted by alignment and by the fetch alone; bytes of a bin list.
ghost use Rattle.std.specs.Prelude.{◌≡◌, ◌+◌, ◌*◌, ◌/◌, ◌≤◌, length};
ghost use Rattle.bins.specs.Bits.{ends};

// Bits are counted from 0, the high bit of byte 0 first.
#[derive(Clone, Copy, PartialEq, Eq)]
pub struct BitPlace(pub usize);

#[derive(Clone, Copy)]
pub struct BytePlace(pub usize);

// A place in a bin list counts its bytes; an entry is two.
#[derive(Clone, Copy)]
pub struct ListPlace(pub usize);

// Where a reader stands in whatever it reads, in that one's unit. The steps, which know what is read, convert.
#[derive(Clone, Copy)]
pub struct SourcePlace(pub usize);

pub fn in_payload(at: SourcePlace) -> BitPlace
    ensures { result.0 ≡ at.0 }
{
    BitPlace(at.0)
}

pub fn of_payload(at: BitPlace) -> SourcePlace
    ensures { result.0 ≡ at.0 }
{
    SourcePlace(at.0)
}

pub fn in_list(at: SourcePlace) -> ListPlace
    ensures { result.0 ≡ at.0 }
{
    ListPlace(at.0)
}

pub fn of_list(at: ListPlace) -> SourcePlace
    ensures { result.0 ≡ at.0 }
{
    SourcePlace(at.0)
}

// The place behind a payload's last bit.
pub fn end_of(bytes: &[u8]) -> BitPlace
    requires { length bytes.now ≤ 16777216 }
    ensures { result.0 ≡ ends bytes.now }
{
    BitPlace(8 * bytes.len())
}

// The fetch: the byte that holds the bit.
pub fn byte_of(at: BitPlace) -> BytePlace
    ensures { result.0 ≡ at.0 / 8 }
{
    BytePlace(at.0 / 8)
}

// Alignment: the first byte that begins at the place or behind it.
pub fn aligned(at: BitPlace) -> BytePlace
    requires { at.0 ≤ 134217728 }
    ensures { result.0 ≡ (at.0 + 7) / 8 }
{
    BytePlace((at.0 + 7) / 8)
}

// Alignment: the first bit of the byte.
pub fn first_bit(at: BytePlace) -> BitPlace
    requires { at.0 ≤ 16777216 }
    ensures { result.0 ≡ at.0 * 8 }
{
    BitPlace(at.0 * 8)
}
