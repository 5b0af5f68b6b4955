// Figures read out, place by place and number by number.

// What stands at a place, or the number of the refusal with zeros. C has it so, as the next (include/bulmegart.h).
#[repr(C)]
#[derive(Clone, Copy)]
pub struct PlaceFigures {
    pub number: u32,
    pub blocks: u32, // that have a non-zero level there
    pub greatest: u32, // magnitude
    pub sum: u64, // of magnitudes
}

// The tally of a number, or the number of the refusal with 0.
#[repr(C)]
#[derive(Clone, Copy)]
pub struct TallyFigure {
    pub number: u32,
    pub count: u32,
}
