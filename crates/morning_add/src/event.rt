// What a line adds, by the size of its block.
ghost use Rattle.std.specs.Prelude.{◌≡◌, ◌≤◌, length};
ghost use Rattle.frame.specs.Frame.{byte_of};

// A block's log2 size and its total past the end; its levels are left beside it.
#[derive(Clone, Copy)]
pub struct BlockRead {
    pub log2: u32,
    pub past: u32,
}

// Those, or the number of the refusal.
pub type LineRead = Result<BlockRead, u32>;

pub fn size_of(bytes: &[u8]) -> u32
    requires { 138 ≤ length bytes.now }
    ensures { result ≡ byte_of bytes.now 0 }
{
    bytes[0] as u32
}
