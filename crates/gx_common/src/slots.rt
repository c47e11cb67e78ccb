ghost use Rattle.std.specs.Prelude.{◌≡◌, [], ◌∷◌, ◌++◌, map, IfOk};
ghost use Rattle.std.specs.Option.{option_map, is_some};
ghost use Rattle.gx_common.specs.Slots.{empty, after_one, after, are_filled as are_all_filled, points_in};

use crate::candidate::Candidate;
use gx_num::NoMemory;
use gx_plane::Plane;
use std::alloc::Global;

/// A face, and the first candidate that was found strictly inside it, if any.
#[derive(Drop)]
pub struct Slot {
    face: Plane,
    point: Option<Candidate>,
}

impl Slot {
    fn new(face: Plane) -> Slot
        ensures { result ≡ empty face }
    {
        Slot { face, point: None }
    }

    // Takes the candidate, where it has none and this one is strictly inside the face.
    fn offer(&mut self, candidate: &Candidate)
        ensures { self.new ≡ after_one (candidate.now ∷ []) self.old }
    {
        if self.point.is_none() {
            if candidate.is_strict(&self.face) {
                self.point = Some(candidate.copy());
            }
        }
    }

    fn is_filled(&self) -> bool
        ensures { result ≡ is_some self.now.point }
    {
        self.point.is_some()
    }
}

/// The faces of two lists, each without a point.
pub fn slots(alloc: Global, faces: &[Plane], others: &[Plane]) -> Result<Vec<Slot>, NoMemory>
    ensures { IfOk result (λ slots. slots.items ≡ map empty (faces.now ++ others.now)) }
{
    let mut slots = Vec::with_capacity(alloc, faces.len())?;
    add(&mut slots, faces)?;
    add(&mut slots, others)?;
    Ok(slots)
}

fn add(slots: &mut Vec<Slot>, faces: &[Plane]) -> Result<(), NoMemory>
    ensures { IfOk result (λ _. slots.new.items ≡ slots.old.items ++ map empty faces.now) }
{
    for &face in faces {
        slots.push(Slot::new(face))?;
    }
    Ok(())
}

/// Offers the candidate to each face that has none. True: no face wants one any more.
pub fn offer(slots: &mut [Slot], candidate: &Candidate) -> bool
    ensures value { slots.new ≡ after (candidate.now ∷ []) slots.old }
    ensures filled { result ≡ are_all_filled slots.new }
{
    for slot in slots.iter_mut() {
        slot.offer(candidate);
    }
    are_filled(slots)
}

fn are_filled(slots: &[Slot]) -> bool
    ensures { result ≡ are_all_filled slots.now }
{
    slots.iter().all(|slot| slot.is_filled())
}

/// The points of all; None where a face has none.
pub fn points(alloc: Global, slots: &[Slot]) -> Result<Option<Vec<Candidate>>, NoMemory>
    ensures { IfOk result (λ found. option_map (λ points. points.items) found ≡ points_in slots.now) }
{
    let mut points = Vec::with_capacity(alloc, slots.len())?;
    for slot in slots {
        let Some(point) = &slot.point else {
            return Ok(None);
        };
        points.push(point.copy())?;
    }
    Ok(Some(points))
}
