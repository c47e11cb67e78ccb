//! Laws over the definitions, each the contract of a function that does nothing.
ghost use Rattle.gx_frame.specs.Laws.{PointsStay, RaysMoveOn};

/// At each parameter a ray's point in a daughter's frame is the local point.
pub fn points_stay()
    ensures { PointsStay }
{}

/// A ray with a direction has one in each daughter's frame.
pub fn rays_move_on()
    ensures { RaysMoveOn }
{}
