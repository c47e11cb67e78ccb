//! A law over the definitions, the contract of a function that does nothing.
ghost use Rattle.gx_navigator.specs.Laws.{EachRayHasACost};

/// Whatever is counted, it adds up to some number along each ray that has a direction.
pub fn each_ray_has_a_cost()
    ensures { EachRayHasACost }
{}
