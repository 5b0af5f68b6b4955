// What settles the levels of a sub-block: context numbers, alignment, hiding, the statistic that is used.

// What goes from sub-block to sub-block, beside the lent flags, levels and statistics.
#[derive(Clone, Copy)]
pub struct Carry {
    pub carry: u32, // greater1Ctx, as the sub-block before left it
    pub first: bool, // no sub-block had a level yet
    pub column: u32, // column extent
}
