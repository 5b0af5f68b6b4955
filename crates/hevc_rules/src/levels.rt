// What goes from a level of a sub-block to the next, and where a level goes.

// What goes from a level of the sub-block to the next.
#[derive(Clone, Copy)]
pub struct Going {
    pub places: u64, // the places left, four bits each, the next in the lowest
    pub count: u32, // how many those are
    pub mask: u32, // the greater1 bins left, the next in the lowest
    pub bins: u32, // how many those are
    pub seen: bool, // a greater1 was met
    pub signs: u32, // how many coded signs are left
    pub rice: u32, // cRiceParam
    pub had: bool, // a remainder was read
    pub sum: u32, // sumAbsLevel
    pub column: u32, // column extent
    pub stat: u8, // the block's statistic
}

// A level's base, and whether a remainder follows.
#[derive(Clone, Copy)]
pub struct Base {
    pub level: u32,
    pub more: bool,
}

// Where a level goes: its column, and its place in the block.
#[derive(Clone, Copy)]
pub struct Cell {
    pub column: u32,
    pub at: usize,
}
