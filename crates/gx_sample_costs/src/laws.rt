//! A law over the definitions, the contract of a function that does nothing.
ghost use Rattle.gx_sample_costs.specs.Costs.{SecondSampleCosts};

use gx_sample_clean::laws::clean_sample;

/// How many daughters are tested along each ray of the second sample at most, how much is read, and how many paths its report has.
pub fn second_sample_costs()
    ensures { SecondSampleCosts }
{
    clean_sample();
}
