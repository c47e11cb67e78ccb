//! Convex hulls of points, in definitions and proofs: faces and extents, and what it is that points are the vertices of a solid.
#![tactic(auto)]

pub mod laws;
