use gx_num::Extent;

/// A box with a number.
#[derive(Clone, Copy)]
pub struct Boxed {
    pub number: u32,
    pub extent: Extent,
}
