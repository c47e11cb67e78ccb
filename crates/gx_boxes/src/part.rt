use crate::Boxed;
use gx_num::Extent;

/// A box, or bounds of the boxes that come next in a tree, so many.
#[derive(Clone, Copy)]
pub enum Part {
    One(Boxed),
    Many { bounds: Extent, boxes: usize },
}
