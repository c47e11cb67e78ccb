ghost use Rattle.std.specs.Prelude.{◌++◌, ◌<◌, IsTrue, codes, length};
ghost use Rattle.gx_io.specs.Bytes.{HasCause, Writes};
ghost use Rattle.gx_fraction.specs.Fraction.{Fraction, parameter_of};
ghost use Rattle.gx_path.specs.Report.{row_of};
ghost use Rattle.gx_tree.specs.Hierarchy.{instances};
ghost use Rattle.gx_print.specs.Range.{is_path};
ghost use Rattle.gx_print.specs.Texts.{after, daughter_text, fraction_text, path_text, place_text, row_text};

use crate::copy::write_copy;
use crate::number::write_fraction;
use gx_fraction::Frac;
use gx_io::{Failed, Sink, write_all};
use gx_path::{Path, Row};
use gx_sealed::Sealed;

/// Writes a row of a ray's report in this hierarchy.
#[tactic(auto, using(gx_io::proofs::Joined::joined))]
pub fn print_row<K: Sink>(sealed: &Sealed, row: &Row, sink: &mut K) -> Result<(), Failed>
    requires { IsTrue (is_path sealed.now sealed.now.world row.now.path) }
    ensures bytes { Writes (K.written sink.old) (K.written sink.new) (row_text sealed.now (row_of row.now.from row.now.to row.now.path)) result }
    ensures cause { HasCause (K.faults sink.old) (K.faults sink.new) result }
{
    write_ends(sink, &row.from, &row.to)?;
    write_all(sink, b" ")?;
    write_place(sink, sealed, &row.path)?;
    write_all(sink, b"\n")
}

#[tactic(auto, using(gx_io::proofs::Joined::joined))]
fn write_ends<K: Sink>(sink: &mut K, from: &Frac, to: &Frac) -> Result<(), Failed>
    ensures bytes { Writes (K.written sink.old) (K.written sink.new)
        (fraction_text (parameter_of from.now) ++ codes " " ++ fraction_text (parameter_of to.now)) result }
    ensures cause { HasCause (K.faults sink.old) (K.faults sink.new) result }
{
    write_fraction(sink, from)?;
    write_all(sink, b" ")?;
    write_fraction(sink, to)
}

#[tactic(auto, using(gx_io::proofs::Joined::joined), unfolding(crate::specs::Texts::place_text))]
fn write_place<K: Sink>(sink: &mut K, sealed: &Sealed, path: &Path) -> Result<(), Failed>
    requires { IsTrue (is_path sealed.now sealed.now.world path.now) }
    ensures bytes { Writes (K.written sink.old) (K.written sink.new) (place_text sealed.now path.now) result }
    ensures cause { HasCause (K.faults sink.old) (K.faults sink.new) result }
{
    write_all(sink, sealed.name(sealed.world()))?;
    write_path(sink, sealed, path)
}

// From the world down.
fn write_path<K: Sink>(sink: &mut K, sealed: &Sealed, path: &Path) -> Result<(), Failed>
    requires { IsTrue (is_path sealed.now sealed.now.world path.now) }
    ensures bytes { Writes (K.written sink.old) (K.written sink.new) (path_text sealed.now sealed.now.world path.now) result }
    ensures cause { HasCause (K.faults sink.old) (K.faults sink.new) result }
{
    let mut volume = sealed.world();
    for i in 0..path.len() {
        let ordinal = path.at(i);
        write_step(sink, b" ", sealed, volume, ordinal)?;
        volume = sealed.step(volume, ordinal).volume;
    }
    Ok(())
}

// A daughter of a volume, behind some text.
#[tactic(auto, using(gx_io::proofs::Joined::joined), unfolding(crate::specs::Texts::after))]
fn write_step<K: Sink>(
    sink: &mut K,
    before: &[u8],
    sealed: &Sealed,
    volume: u32,
    ordinal: u32,
) -> Result<(), Failed>
    requires volume { volume < length sealed.now.volumes }
    requires ordinal { ordinal < length (instances sealed.now volume) }
    ensures bytes { Writes (K.written sink.old) (K.written sink.new) (after before.now (daughter_text sealed.now volume ordinal)) result }
    ensures cause { HasCause (K.faults sink.old) (K.faults sink.new) result }
{
    write_all(sink, before)?;
    write_daughter(sink, sealed, volume, ordinal)
}

#[tactic(auto, unfolding(crate::specs::Texts::daughter_text))]
fn write_daughter<K: Sink>(
    sink: &mut K,
    sealed: &Sealed,
    volume: u32,
    ordinal: u32,
) -> Result<(), Failed>
    requires volume { volume < length sealed.now.volumes }
    requires ordinal { ordinal < length (instances sealed.now volume) }
    ensures bytes { Writes (K.written sink.old) (K.written sink.new) (daughter_text sealed.now volume ordinal) result }
    ensures cause { HasCause (K.faults sink.old) (K.faults sink.new) result }
{
    let step = sealed.step(volume, ordinal);
    write_copy(sink, sealed.name(step.volume), ordinal, &step.copy)
}
