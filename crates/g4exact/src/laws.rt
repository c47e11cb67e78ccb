//! Laws over the definitions, each the contract of a function that does nothing.
ghost use Rattle.g4exact.specs.Laws.{SamplesAreSummaries, SecondSampleIsCounted};

use gx_sample_clean::laws::clean_sample;
use gx_sample_costs::laws::second_sample_costs;

/// What a sample writes is the line of its numbers.
pub fn samples_are_summaries()
    ensures { SamplesAreSummaries }
{
    clean_sample();
}

/// What tracing the second sample counts: a counter takes no bytes, so that no program can look at it.
pub fn second_sample_is_counted()
    ensures { SecondSampleIsCounted }
{
    clean_sample();
    second_sample_costs();
}
