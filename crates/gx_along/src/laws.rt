//! A law over the definitions, the contract of a function that does nothing.
ghost use Rattle.gx_along.specs.Laws.{HeadersRise};

/// The bounds of a header that stands for members rise, and each run has coordinates.
pub fn headers_rise()
    ensures { HeadersRise }
{}
