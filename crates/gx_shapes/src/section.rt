/// num/den, with den above 0.
#[derive(Clone, Copy, Debug, PartialEq, Eq)]
pub struct Scale {
    pub num: i64,
    pub den: i64,
}

/// An end of an extrusion, at height z: its corners are the polygon's times the scale, moved by x and y.
#[derive(Clone, Copy, Debug, PartialEq, Eq)]
pub struct Section {
    pub z: i64,
    pub x: i64,
    pub y: i64,
    pub scale: Scale,
}
