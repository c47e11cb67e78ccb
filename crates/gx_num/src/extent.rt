use crate::V3;

/// The least and the greatest coordinates of a set of points.
#[derive(Clone, Copy, Debug, PartialEq, Eq)]
pub struct Extent {
    pub low: V3,
    pub high: V3,
}
