ghost use Rattle.std.specs.Prelude.{◌≡◌, ◌<◌, ◌-◌, ◌^◌, length, None, Ok, IfOk, IfErr};
ghost use Rattle.std.specs.Option.{option_map};
ghost use Rattle.gx_convex.specs.Points.{distinct};
ghost use Rattle.gx_form.specs.Form.{Reads};
ghost use Rattle.gx_shapes.specs.Solid.{kind_of, vertices_of, whole_fault};
ghost use Rattle.gx_shapes.specs.Accepted.{IsFigure, all_of, sealed, accepted, fault_at as fault_at_spec, first_fault};
ghost use Rattle.gx_solids.specs.Cause.{IsSolidCause};
ghost use Rattle.gx_solids.specs.Whole as spec;

use crate::numbers::Numbers;
use crate::read::{read_figure, read_values};
use crate::vertices::vertices;
use crate::whole::{facet_fault, polygon_fault};
use gx_form::Refusal;
use gx_hull::{Hull, HullFault, Solid};
use gx_shapes::{Figure, SolidFault, SolidKind};
use gx_table::FaultName;
use std::alloc::Global;

/// The solid of this kind with these values; or the first fault at a value, and else the fault of the whole solid.
pub fn solid(alloc: Global, kind: SolidKind, values: &[i64]) -> Result<Solid, SolidFault>
    requires { length values.now < 2 ^ 32 - 1 }
    ensures ok { IfOk result (λ solid. accepted kind values.now ≡ Ok solid) }
    ensures err { IfErr result (IsSolidCause (accepted kind values.now)) }
{
    let mut numbers = Numbers::new(values);
    match read_all(alloc, kind, &mut numbers) {
        Ok(figure) => seal(alloc, figure),
        Err(Refusal::At(fault)) => Err(SolidFault::At(fault.place.saturating_sub(1), fault.name)),
        Err(Refusal::NoMemory) => Err(SolidFault::NoMemory),
    }
}

fn read_all(alloc: Global, kind: SolidKind, numbers: &mut Numbers<'_>) -> Result<Figure, Refusal>
    ensures reads { Reads (all_of kind numbers.old) result numbers.new }
    ensures kind { IfOk result (λ figure. kind_of figure ≡ kind) }
{
    let figure = read_figure(alloc, kind, numbers)?;
    numbers.end()?;
    Ok(figure)
}

/// The solid of a figure that was read, or the fault of the whole solid.
pub fn seal(alloc: Global, figure: Figure) -> Result<Solid, SolidFault>
    requires { IsFigure figure }
    ensures ok { IfOk result (λ solid. sealed figure ≡ Ok solid) }
    ensures err { IfErr result (IsSolidCause (sealed figure)) }
{
    if let Some(name) = polygon_fault(&figure) {
        return Err(SolidFault::Whole(name));
    }
    let hull = hull(alloc, &figure)?;
    if let Some(name) = facet_fault(&figure, &hull) {
        return Err(SolidFault::Whole(name));
    }
    Ok(Solid::seal(figure, hull))
}

// The hull of the vertices, or the fault of the whole solid where they have none.
fn hull(alloc: Global, figure: &Figure) -> Result<Hull, SolidFault>
    requires values { IsFigure figure.now }
    requires polygon { spec.polygon_fault figure.now ≡ None }
    ensures ok { IfOk result (λ hull. hull ≡ distinct (vertices_of figure.now)) }
    ensures left { IfOk result (λ _. whole_fault figure.now ≡ spec.facet_fault figure.now) }
    ensures err { IfErr result (IsSolidCause (sealed figure.now)) }
{
    match Hull::new(alloc, vertices(alloc, figure)?) {
        Ok(hull) => Ok(hull),
        Err(HullFault::Vertices) => Err(SolidFault::Whole(FaultName::Vertices)),
        Err(HullFault::Flat) => Err(SolidFault::Whole(FaultName::Flat)),
        Err(HullFault::NoMemory) => Err(SolidFault::NoMemory),
    }
}

/// The first fault at one of the values given so far, with its place from 0.
pub fn word_fault(kind: SolidKind, values: &[i64]) -> Option<(u32, FaultName)>
    requires { length values.now < 2 ^ 32 - 1 }
    ensures { option_map (λ fault. record { place = fault.0; name = fault.1 }) result ≡ first_fault kind values.now }
{
    let mut numbers = Numbers::new(values);
    match read_values(kind, &mut numbers) {
        Ok(()) => None,
        Err(fault) => fault_at(fault.place, fault.name),
    }
}

// A value that is missing is no fault of those that were given.
fn fault_at(place: u32, name: FaultName) -> Option<(u32, FaultName)>
    ensures { option_map (λ fault. record { place = fault.0; name = fault.1 }) result ≡ fault_at_spec place name }
{
    match name {
        FaultName::Words => None,
        _ => Some((place.saturating_sub(1), name)),
    }
}
