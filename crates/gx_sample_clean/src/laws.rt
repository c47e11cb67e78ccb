//! A law over the definitions, the contract of a function that does nothing.

ghost use Rattle.gx_sample_clean.specs.Laws.{CleanSample};

use gx_check::laws::clean_where_unrefuted;

/// A sample text is read without a fault, as a clean hierarchy and three rays.
pub fn clean_sample()
    ensures { CleanSample }
{
    // A clean hierarchy has no verdict that refutes it.
    clean_where_unrefuted();
}
