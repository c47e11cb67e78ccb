/// The answer of a read or a write that a fault ended.
#[derive(Clone, Copy, Debug, PartialEq, Eq)]
pub struct Failed;
