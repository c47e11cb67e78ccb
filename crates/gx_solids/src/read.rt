//! Reading the values of a solid: each function mirrors the definition of its name.

ghost use Rattle.std.specs.Prelude.{◌≡◌, ◌≤◌, ◌<ℤ◌, pos, IfOk};
ghost use Rattle.gx_form.specs.Form.{Exactly, Reads, collect, forget};
ghost use Rattle.gx_shapes.specs.Figure as spec;
ghost use Rattle.gx_shapes.specs.Solid.{kind_of};

use crate::Values;
use crate::sections::{are_near, are_whole};
use gx_form::{Fault, Refusal};
use gx_num::V3;
use gx_shapes::{Facet, Facets, Figure, Polygon, Section, SolidKind};
use gx_table::FaultName;
use std::alloc::Global;

/// Reads the figure of this kind, or answers the first fault of its values.
pub fn read_figure<V: Values>(
    alloc: Global,
    kind: SolidKind,
    values: &mut V,
) -> Result<Figure, Refusal>
    ensures reads { Reads (spec.figure_in V.source kind values.old) result values.new }
    ensures kind { IfOk result (λ figure. kind_of figure ≡ kind) }
{
    match kind {
        SolidKind::Cuboid => Ok(cuboid(values)?),
        SolidKind::Trd => Ok(trd(values)?),
        SolidKind::Tet => Ok(tet(values)?),
        SolidKind::Extruded => Ok(extruded(values)?),
        SolidKind::Tessellated => tessellated(alloc, values),
    }
}

/// The same, keeping nothing.
pub fn read_values<V: Values>(kind: SolidKind, values: &mut V) -> Result<(), Fault>
    ensures { Exactly (forget (spec.figure_in V.source kind values.old)) result values.new }
{
    match kind {
        SolidKind::Cuboid => {
            cuboid(values)?;
        }
        SolidKind::Trd => {
            trd(values)?;
        }
        SolidKind::Tet => {
            tet(values)?;
        }
        SolidKind::Extruded => {
            extruded(values)?;
        }
        SolidKind::Tessellated => {
            let n = values.whole(1, 4096, FaultName::Count)?;
            facets(values, n as u32)?;
        }
    }
    Ok(())
}

// ---- half-lengths and points

fn cuboid<V: Values>(values: &mut V) -> Result<Figure, Fault>
    ensures { Exactly (spec.figure_in V.source SolidKind.Cuboid values.old) result values.new }
{
    Ok(Figure::Cuboid(half(values)?, half(values)?, half(values)?))
}

fn trd<V: Values>(values: &mut V) -> Result<Figure, Fault>
    ensures { Exactly (spec.figure_in V.source SolidKind.Trd values.old) result values.new }
{
    let dx1 = width(values)?;
    let dx2 = second_width(values, dx1)?;
    let dy1 = width(values)?;
    let dy2 = second_width(values, dy1)?;
    let dz = half(values)?;
    Ok(Figure::Trd(dx1, dx2, dy1, dy2, dz))
}

fn tet<V: Values>(values: &mut V) -> Result<Figure, Fault>
    ensures { Exactly (spec.figure_in V.source SolidKind.Tet values.old) result values.new }
{
    Ok(Figure::Tet(
        point(values)?,
        point(values)?,
        point(values)?,
        point(values)?,
    ))
}

fn half<V: Values>(values: &mut V) -> Result<i64, Fault>
    ensures { Exactly (spec.half V.source values.old) result values.new }
{
    let v = values.length()?;
    if v <= 0 {
        return Err(values.fault(FaultName::Half));
    }
    Ok(v)
}

fn width<V: Values>(values: &mut V) -> Result<i64, Fault>
    ensures { Exactly (spec.width V.source values.old) result values.new }
{
    let v = values.length()?;
    if v < 0 {
        return Err(values.fault(FaultName::Half));
    }
    Ok(v)
}

fn second_width<V: Values>(values: &mut V, first: i64) -> Result<i64, Fault>
    ensures { Exactly (spec.second_width V.source first values.old) result values.new }
{
    let v = width(values)?;
    if first == 0 && v == 0 {
        return Err(values.fault(FaultName::Half));
    }
    Ok(v)
}

fn point<V: Values>(values: &mut V) -> Result<V3, Fault>
    ensures { Exactly (spec.point_in V.source values.old) result values.new }
{
    Ok(V3 {
        x: values.length()?,
        y: values.length()?,
        z: values.length()?,
    })
}

// ---- extrusions

fn extruded<V: Values>(values: &mut V) -> Result<Figure, Fault>
    ensures { Exactly (spec.figure_in V.source SolidKind.Extruded values.old) result values.new }
{
    let n = corner_count(values)?;
    let polygon = polygon(values, n)?;
    values.whole(2, 2, FaultName::Sections)?;
    let (low, high) = sections(values, polygon.as_slice())?;
    Ok(Figure::Extruded(polygon, low, high))
}

fn corner_count<V: Values>(values: &mut V) -> Result<u32, Fault>
    ensures reads { Exactly (spec.corner_count V.source values.old) result values.new }
    ensures few { IfOk result (λ n. n ≤ 16) }
{
    let n = values.whole(3, i64::MAX, FaultName::Count)?;
    if n > 16 {
        return Err(values.fault(FaultName::Vertices));
    }
    Ok(n as u32)
}

#[tactic(auto, using(gx_form::proofs::Turns::turns))]
fn polygon<V: Values>(values: &mut V, n: u32) -> Result<Polygon, Fault>
    requires { n ≤ 16 }
    ensures { Exactly (collect n (spec.corner_in V.source) values.old) result values.new }
{
    let mut corners = Polygon::new();
    for _turn in 0..n {
        corners.push(corner(values)?);
    }
    Ok(corners)
}

fn corner<V: Values>(values: &mut V) -> Result<V3, Fault>
    ensures { Exactly (spec.corner_in V.source values.old) result values.new }
{
    Ok(V3 {
        x: values.length()?,
        y: values.length()?,
        z: 0,
    })
}

fn sections<V: Values>(values: &mut V, corners: &[V3]) -> Result<(Section, Section), Fault>
    ensures { Exactly (spec.sections V.source corners.now values.old) result values.new }
{
    let z1 = values.length()?;
    let low = section(values, corners, z1)?;
    let z2 = second_height(values, z1)?;
    let high = section(values, corners, z2)?;
    Ok((low, high))
}

fn second_height<V: Values>(values: &mut V, first: i64) -> Result<i64, Fault>
    ensures { Exactly (spec.second_height V.source first values.old) result values.new }
{
    let z = values.length()?;
    if z <= first {
        return Err(values.fault(FaultName::Sections));
    }
    Ok(z)
}

fn section<V: Values>(values: &mut V, corners: &[V3], z: i64) -> Result<Section, Fault>
    ensures { Exactly (spec.section_at V.source corners.now z values.old) result values.new }
{
    let x = values.length()?;
    let y = values.length()?;
    let scale = values.scale()?;
    section_from(values, corners, Section { z, x, y, scale })
}

fn section_from<V: Values>(values: &V, corners: &[V3], section: Section) -> Result<Section, Fault>
    requires { pos 0 <ℤ section.scale.den }
    ensures { Exactly (spec.section_from V.source corners.now section values.now) result values.now }
{
    if section.scale.num <= 0 {
        return Err(values.fault(FaultName::Scale));
    }
    if !are_whole(section.scale, corners) {
        return Err(values.fault(FaultName::Scale));
    }
    if !are_near(section, corners) {
        return Err(values.fault(FaultName::TooFar));
    }
    Ok(section)
}

// ---- facets

fn tessellated<V: Values>(alloc: Global, values: &mut V) -> Result<Figure, Refusal>
    ensures reads { Reads (spec.figure_in V.source SolidKind.Tessellated values.old) result values.new }
    ensures kind { IfOk result (λ figure. kind_of figure ≡ SolidKind.Tessellated) }
{
    let n = values.whole(1, 4096, FaultName::Count)?;
    Ok(Figure::Tessellated(kept_facets(alloc, values, n as u32)?))
}

#[tactic(auto, using(gx_form::proofs::Turns::turns))]
fn kept_facets<V: Values>(alloc: Global, values: &mut V, n: u32) -> Result<Facets, Refusal>
    ensures { Reads (collect n (spec.facet_in V.source) values.old) result values.new }
{
    let mut facets = Facets::new(alloc);
    for _turn in 0..n {
        facets.push(facet(values)?)?;
    }
    Ok(facets)
}

#[tactic(auto, using(gx_form::proofs::Turns::turns))]
fn facets<V: Values>(values: &mut V, n: u32) -> Result<(), Fault>
    ensures { Exactly (forget (collect n (spec.facet_in V.source) values.old)) result values.new }
{
    for _turn in 0..n {
        facet(values)?;
    }
    Ok(())
}

fn facet<V: Values>(values: &mut V) -> Result<Facet, Fault>
    ensures { Exactly (spec.facet_in V.source values.old) result values.new }
{
    let n = values.whole(3, 4, FaultName::Count)?;
    Ok(Facet {
        a: point(values)?,
        b: point(values)?,
        c: point(values)?,
        d: fourth(values, n)?,
    })
}

fn fourth<V: Values>(values: &mut V, n: i64) -> Result<Option<V3>, Fault>
    ensures { Exactly (spec.fourth_in V.source n values.old) result values.new }
{
    if n == 3 {
        return Ok(None);
    }
    Ok(Some(point(values)?))
}
