// The bytes of a packed payload: carries, and the end.
#![tactic(auto)]

pub mod bytes; // bytes.rt: bytes that go out: a carry into those that stand, one more, and the last ones
