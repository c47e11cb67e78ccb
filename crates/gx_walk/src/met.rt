use gx_clip::Span;
use gx_num::Ray;

/// A volume, and a ray in its frame.
#[derive(Clone, Copy, Debug, PartialEq, Eq)]
pub struct Frame {
    pub volume: u32,
    pub ray: Ray,
}

/// A daughter that a ray is inside strictly between the ends of a span, with the ray in her frame.
#[derive(Clone, Copy, Debug, PartialEq, Eq)]
pub struct Met {
    pub ordinal: u32,
    pub span: Span,
    pub frame: Frame,
}
