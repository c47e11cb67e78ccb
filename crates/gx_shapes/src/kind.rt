/// The kinds of solids.
#[derive(Clone, Copy, Debug, PartialEq, Eq)]
pub enum SolidKind {
    /// `BOX` hx hy hz: half-lengths.
    Cuboid,
    /// `TRD` dx1 dx2 dy1 dy2 dz: half-lengths, index 1 at -dz.
    Trd,
    /// `TET`: four points.
    Tet,
    /// `EXTRUDED`: a convex polygon, scaled and moved at two heights.
    Extruded,
    /// `TESSELLATED`: facets of three or four corners, anticlockwise from outside.
    Tessellated,
}
