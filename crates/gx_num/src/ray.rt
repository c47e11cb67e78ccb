use crate::V3;

/// A ray: its origin and its direction, in steps of the grid.
#[derive(Clone, Copy, Debug, PartialEq, Eq)]
pub struct Ray {
    pub o: V3,
    pub d: V3,
}
