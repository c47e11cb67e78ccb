use gx_num::V3;
use gx_rotation::Rotation;

/// A daughter in her mother: the local point of x in her is `rotation` * (x - `offset`).
#[derive(Clone, Copy, Debug, PartialEq, Eq)]
pub struct Instance {
    pub volume: u32,
    pub copy: i32,
    pub rotation: Rotation,
    pub offset: V3,
}
