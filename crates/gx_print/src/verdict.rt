ghost use Rattle.std.specs.Prelude.{◌++◌, ◌<◌, IsTrue, codes, decimal, flat_map, length};
ghost use Rattle.gx_io.specs.Bytes.{HasCause, Writes};
ghost use Rattle.gx_tree.specs.Hierarchy.{instances};
ghost use Rattle.gx_print.specs.Range.{is_in_range};
ghost use Rattle.gx_print.specs.Texts.{verdict_line, counts_line, after, daughter_text, in_mother, pair_text, vector_text, plane_text, point_text};

use crate::copy::write_copy;
use crate::number::write_after;
use gx_check::{Counts, Verdict};
use gx_common::Points;
use gx_io::{Failed, Sink, write_all};
use gx_num::{Hp, V3};
use gx_plane::Plane;
use gx_tree::Hierarchy;
use itoa::Integer;

/// Writes the line of a verdict on this hierarchy.
pub fn print_verdict<K: Sink>(
    tree: &Hierarchy,
    verdict: &Verdict,
    sink: &mut K,
) -> Result<(), Failed>
    requires { IsTrue (is_in_range tree.now verdict.now) }
    ensures bytes { Writes (K.written sink.old) (K.written sink.new) (verdict_line tree.now verdict.now) result }
    ensures cause { HasCause (K.faults sink.old) (K.faults sink.new) result }
{
    match verdict {
        Verdict::Inner { mother, ordinal } => write_inner(sink, b"in ", tree, *mother, *ordinal),
        Verdict::Outer {
            mother,
            ordinal,
            point,
        } => write_outer(sink, b"out ", tree, *mother, *ordinal, point),
        Verdict::Apart {
            mother,
            first,
            second,
            plane,
        } => write_apart(sink, b"apart ", tree, *mother, *first, *second, plane),
        Verdict::Overlap {
            mother,
            first,
            second,
            points,
        } => write_overlap(sink, b"overlap ", tree, *mother, *first, *second, points),
    }
}

/// Writes the line of counts.
pub fn print_counts<K: Sink>(counts: &Counts, sink: &mut K) -> Result<(), Failed>
    ensures bytes { Writes (K.written sink.old) (K.written sink.new) (counts_line counts.now) result }
    ensures cause { HasCause (K.faults sink.old) (K.faults sink.new) result }
{
    write_counts(
        sink,
        b"checked ",
        b" daughters ",
        b" pairs ",
        b" refuted\n",
        counts,
    )
}

// The words of lines are parameters, so that proofs join a line from its parts, and not from bytes.

#[tactic(auto, using(gx_io::proofs::Joined::joined))]
fn write_counts<K: Sink>(
    sink: &mut K,
    checked: &[u8],
    daughters: &[u8],
    pairs: &[u8],
    refuted: &[u8],
    counts: &Counts,
) -> Result<(), Failed>
    ensures bytes { Writes (K.written sink.old) (K.written sink.new)
        (after checked.now (decimal counts.now.daughters) ++ after daughters.now (decimal counts.now.pairs) ++ after pairs.now (decimal counts.now.refuted) ++ refuted.now) result }
    ensures cause { HasCause (K.faults sink.old) (K.faults sink.new) result }
{
    write_after(sink, checked, counts.daughters)?;
    write_after(sink, daughters, counts.pairs)?;
    write_after(sink, pairs, counts.refuted)?;
    write_all(sink, refuted)
}

#[tactic(auto, using(gx_io::proofs::Joined::joined))]
fn write_inner<K: Sink>(
    sink: &mut K,
    head: &[u8],
    tree: &Hierarchy,
    mother: u32,
    ordinal: u32,
) -> Result<(), Failed>
    requires mother { mother < length tree.now.volumes }
    requires ordinal { ordinal < length (instances tree.now mother) }
    ensures bytes { Writes (K.written sink.old) (K.written sink.new) (head.now ++ in_mother tree.now mother ordinal ++ codes "\n") result }
    ensures cause { HasCause (K.faults sink.old) (K.faults sink.new) result }
{
    write_all(sink, head)?;
    write_in_mother(sink, tree, mother, ordinal)?;
    write_all(sink, b"\n")
}

#[tactic(auto, using(gx_io::proofs::Joined::joined))]
fn write_outer<K: Sink>(
    sink: &mut K,
    head: &[u8],
    tree: &Hierarchy,
    mother: u32,
    ordinal: u32,
    point: &V3,
) -> Result<(), Failed>
    requires mother { mother < length tree.now.volumes }
    requires ordinal { ordinal < length (instances tree.now mother) }
    ensures bytes { Writes (K.written sink.old) (K.written sink.new) (head.now ++ in_mother tree.now mother ordinal ++ vector_text point.now ++ codes "\n") result }
    ensures cause { HasCause (K.faults sink.old) (K.faults sink.new) result }
{
    write_all(sink, head)?;
    write_in_mother(sink, tree, mother, ordinal)?;
    write_vector(sink, point)?;
    write_all(sink, b"\n")
}

#[tactic(auto, using(gx_io::proofs::Joined::joined))]
fn write_apart<K: Sink>(
    sink: &mut K,
    head: &[u8],
    tree: &Hierarchy,
    mother: u32,
    first: u32,
    second: u32,
    plane: &Plane,
) -> Result<(), Failed>
    requires mother { mother < length tree.now.volumes }
    requires first { first < length (instances tree.now mother) }
    requires second { second < length (instances tree.now mother) }
    ensures bytes { Writes (K.written sink.old) (K.written sink.new)
        (head.now ++ pair_text tree.now mother first second ++ plane_text plane.now ++ codes "\n") result }
    ensures cause { HasCause (K.faults sink.old) (K.faults sink.new) result }
{
    write_all(sink, head)?;
    write_pair(sink, tree, mother, first, second)?;
    write_plane(sink, plane)?;
    write_all(sink, b"\n")
}

#[tactic(auto, using(gx_io::proofs::Joined::joined))]
fn write_overlap<K: Sink>(
    sink: &mut K,
    head: &[u8],
    tree: &Hierarchy,
    mother: u32,
    first: u32,
    second: u32,
    points: &Points,
) -> Result<(), Failed>
    requires mother { mother < length tree.now.volumes }
    requires first { first < length (instances tree.now mother) }
    requires second { second < length (instances tree.now mother) }
    ensures bytes { Writes (K.written sink.old) (K.written sink.new)
        (head.now ++ pair_text tree.now mother first second ++ flat_map point_text points.now ++ codes "\n") result }
    ensures cause { HasCause (K.faults sink.old) (K.faults sink.new) result }
{
    write_all(sink, head)?;
    write_pair(sink, tree, mother, first, second)?;
    write_points(sink, points)?;
    write_all(sink, b"\n")
}

#[tactic(auto, using(gx_io::proofs::Joined::joined), unfolding(crate::specs::Texts::pair_text))]
fn write_pair<K: Sink>(
    sink: &mut K,
    tree: &Hierarchy,
    mother: u32,
    first: u32,
    second: u32,
) -> Result<(), Failed>
    requires mother { mother < length tree.now.volumes }
    requires first { first < length (instances tree.now mother) }
    requires second { second < length (instances tree.now mother) }
    ensures bytes { Writes (K.written sink.old) (K.written sink.new) (pair_text tree.now mother first second) result }
    ensures cause { HasCause (K.faults sink.old) (K.faults sink.new) result }
{
    write_in_mother(sink, tree, mother, first)?;
    write_all(sink, b" ")?;
    write_daughter(sink, tree, mother, second)
}

#[tactic(auto, using(gx_io::proofs::Joined::joined), unfolding(crate::specs::Texts::in_mother))]
fn write_in_mother<K: Sink>(
    sink: &mut K,
    tree: &Hierarchy,
    mother: u32,
    ordinal: u32,
) -> Result<(), Failed>
    requires mother { mother < length tree.now.volumes }
    requires ordinal { ordinal < length (instances tree.now mother) }
    ensures bytes { Writes (K.written sink.old) (K.written sink.new) (in_mother tree.now mother ordinal) result }
    ensures cause { HasCause (K.faults sink.old) (K.faults sink.new) result }
{
    write_all(sink, tree.name(mother))?;
    write_all(sink, b" ")?;
    write_daughter(sink, tree, mother, ordinal)
}

#[tactic(auto, unfolding(crate::specs::Texts::daughter_text))]
fn write_daughter<K: Sink>(
    sink: &mut K,
    tree: &Hierarchy,
    mother: u32,
    ordinal: u32,
) -> Result<(), Failed>
    requires mother { mother < length tree.now.volumes }
    requires ordinal { ordinal < length (instances tree.now mother) }
    ensures bytes { Writes (K.written sink.old) (K.written sink.new) (daughter_text tree.now mother ordinal) result }
    ensures cause { HasCause (K.faults sink.old) (K.faults sink.new) result }
{
    let instance = tree.instance(mother, ordinal);
    write_copy(sink, tree.name(instance.volume), ordinal, &instance.copy)
}

#[tactic(auto, unfolding(crate::specs::Texts::vector_text))]
fn write_vector<K: Sink>(sink: &mut K, v: &V3) -> Result<(), Failed>
    ensures bytes { Writes (K.written sink.old) (K.written sink.new) (vector_text v.now) result }
    ensures cause { HasCause (K.faults sink.old) (K.faults sink.new) result }
{
    write_three(sink, b" ", b" ", v.x, v.y, v.z)
}

#[tactic(auto, using(gx_io::proofs::Joined::joined))]
fn write_three<K: Sink, N: Integer>(
    sink: &mut K,
    first: &[u8],
    next: &[u8],
    x: N,
    y: N,
    z: N,
) -> Result<(), Failed>
    ensures bytes { Writes (K.written sink.old) (K.written sink.new) (after first.now (N.text x) ++ after next.now (N.text y) ++ after next.now (N.text z)) result }
    ensures cause { HasCause (K.faults sink.old) (K.faults sink.new) result }
{
    write_after(sink, first, x)?;
    write_after(sink, next, y)?;
    write_after(sink, next, z)
}

#[tactic(auto, using(gx_io::proofs::Joined::joined), unfolding(crate::specs::Texts::plane_text))]
fn write_plane<K: Sink>(sink: &mut K, plane: &Plane) -> Result<(), Failed>
    ensures bytes { Writes (K.written sink.old) (K.written sink.new) (plane_text plane.now) result }
    ensures cause { HasCause (K.faults sink.old) (K.faults sink.new) result }
{
    write_vector(sink, &plane.n())?;
    write_after(sink, b" ", plane.e())
}

fn write_points<K: Sink>(sink: &mut K, points: &Points) -> Result<(), Failed>
    ensures bytes { Writes (K.written sink.old) (K.written sink.new) (flat_map point_text points.now) result }
    ensures cause { HasCause (K.faults sink.old) (K.faults sink.new) result }
{
    for i in 0..points.count() {
        write_point(sink, &points.at(i))?;
    }
    Ok(())
}

#[tactic(auto, unfolding(crate::specs::Texts::point_text))]
fn write_point<K: Sink>(sink: &mut K, point: &Hp) -> Result<(), Failed>
    ensures bytes { Writes (K.written sink.old) (K.written sink.new) (point_text point.now) result }
    ensures cause { HasCause (K.faults sink.old) (K.faults sink.new) result }
{
    write_four(sink, b" ", b":", point.x(), point.y(), point.z(), point.w())
}

#[tactic(auto, using(gx_io::proofs::Joined::joined))]
fn write_four<K: Sink, N: Integer>(
    sink: &mut K,
    first: &[u8],
    next: &[u8],
    x: N,
    y: N,
    z: N,
    w: N,
) -> Result<(), Failed>
    ensures bytes { Writes (K.written sink.old) (K.written sink.new) (after first.now (N.text x) ++ after next.now (N.text y) ++ after next.now (N.text z) ++ after next.now (N.text w)) result }
    ensures cause { HasCause (K.faults sink.old) (K.faults sink.new) result }
{
    write_three(sink, first, next, x, y, z)?;
    write_after(sink, next, w)
}
