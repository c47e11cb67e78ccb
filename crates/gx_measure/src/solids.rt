//! Solids of lists of values.

use crate::lists::{accepted, dented, repeated};
use crate::random::Random;
use gx_hull::Solid;
use gx_shapes::{SolidFault, SolidKind};
use gx_solids::solid;
use gx_table::FaultName;
use std::alloc::Global;

/// The faces of so many solids.
pub fn faces(
    alloc: Global,
    random: &mut Random,
    kind: SolidKind,
    count: u64,
    vertices: u8,
) -> Option<u64> {
    let mut faces = 0u64;
    for _ in 0..count {
        let values = accepted(alloc, random, kind, vertices).ok()?;
        let solid = judged(alloc, kind, &values).ok()?;
        faces = faces.saturating_add(solid.hull().faces().len() as u64);
    }
    Some(faces)
}

/// The fault of a list that is judged so many times, and that the last test of its kind refuses.
pub fn fault(alloc: Global, random: &mut Random, kind: SolidKind, count: u64) -> Option<FaultName> {
    let values = match kind {
        SolidKind::Extruded => dented(alloc, random).ok()?,
        SolidKind::Tessellated => repeated(alloc, random).ok()?,
        _ => return None,
    };
    let mut fault = None;
    for _ in 0..count {
        if let Err(SolidFault::Whole(name)) = judged(alloc, kind, &values) {
            fault = Some(name);
        }
    }
    fault
}

// No list here is longer.
const MAX_VALUES: usize = 65536;

fn judged(alloc: Global, kind: SolidKind, values: &[i64]) -> Result<Solid, SolidFault> {
    if values.len() > MAX_VALUES {
        return Err(SolidFault::Whole(FaultName::TooMany));
    }
    solid(alloc, kind, values)
}
