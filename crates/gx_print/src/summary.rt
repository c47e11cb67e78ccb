ghost use Rattle.std.specs.Prelude.{◌++◌, decimal};
ghost use Rattle.gx_io.specs.Bytes.{HasCause, Writes};
ghost use Rattle.gx_print.specs.Texts.{after, summary_text, summary_line};

use crate::number::write_after;
use gx_io::{Failed, Sink, write_all};

/// What is told of a sample: its number, the daughters of all its mothers, its rays, and the rows of their reports.
#[derive(Clone, Copy, Debug, PartialEq, Eq)]
pub struct Summary {
    pub number: u32,
    pub instances: u32,
    pub rays: u32,
    pub rows: u64,
}

/// Writes the line of a sample.
#[tactic(auto, using(gx_io::proofs::Joined::joined))]
pub fn print_summary<K: Sink>(summary: &Summary, sink: &mut K) -> Result<(), Failed>
    ensures bytes { Writes (K.written sink.old) (K.written sink.new) (summary_line summary.now) result }
    ensures cause { HasCause (K.faults sink.old) (K.faults sink.new) result }
{
    write_numbers(sink, summary)?;
    write_all(sink, b"\n")
}

#[tactic(auto, unfolding(crate::specs::Texts::summary_text))]
fn write_numbers<K: Sink>(sink: &mut K, summary: &Summary) -> Result<(), Failed>
    ensures bytes { Writes (K.written sink.old) (K.written sink.new) (summary_text summary.now) result }
    ensures cause { HasCause (K.faults sink.old) (K.faults sink.new) result }
{
    write_summary(
        sink,
        b"sample ",
        b" instances ",
        b" rays ",
        b" rows ",
        summary,
    )
}

// The words of the line are parameters, so that proofs join it from its parts, and not from bytes.

#[tactic(auto, using(gx_io::proofs::Joined::joined))]
fn write_summary<K: Sink>(
    sink: &mut K,
    sample: &[u8],
    instances: &[u8],
    rays: &[u8],
    rows: &[u8],
    summary: &Summary,
) -> Result<(), Failed>
    ensures bytes { Writes (K.written sink.old) (K.written sink.new)
        (after sample.now (decimal summary.now.number) ++ after instances.now (decimal summary.now.instances) ++ after rays.now (decimal summary.now.rays) ++ after rows.now (decimal summary.now.rows)) result }
    ensures cause { HasCause (K.faults sink.old) (K.faults sink.new) result }
{
    write_after(sink, sample, summary.number)?;
    write_after(sink, instances, summary.instances)?;
    write_after(sink, rays, summary.rays)?;
    write_after(sink, rows, summary.rows)
}
