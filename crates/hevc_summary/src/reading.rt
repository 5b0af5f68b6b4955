// Reading into a kept block, from a payload or from a bin list: the reader's answer, and what is kept counted anew wherever the reader came to the
// block, which after 7, 8 and 13 is zeros.
use crate::kept::Whole;
use hevc_residual::answers::{Read, ReadList};

// The reader's answer, and the record of the whole behind it.
#[derive(Clone, Copy)]
pub struct ReadInto {
    pub read: Read,
    pub whole: Whole,
}

#[derive(Clone, Copy)]
pub struct ListInto {
    pub read: ReadList,
    pub whole: Whole,
}
