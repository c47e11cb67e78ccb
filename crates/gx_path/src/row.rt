use crate::Path;
use gx_fraction::Frac;

/// A piece of a ray's report: the path of the deepest volume between two parameters.
#[derive(Drop)]
pub struct Row {
    pub from: Frac,
    pub to: Frac,
    pub path: Path,
}
