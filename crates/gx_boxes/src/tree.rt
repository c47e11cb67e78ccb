ghost use Rattle.std.specs.Prelude.{◌<◌, ◌++◌, ◌∷◌, length, map, IfOk};
ghost use Rattle.std.specs.List.{All, AllByRecursion};
ghost use Rattle.std.specs.List.Sorted.{IsPermutation};
ghost use Rattle.gx_offers.specs.Offers.{IsOffered};
ghost use Rattle.gx_boxes.specs.Boxes.{IsProper, IsNear, IsMetAmong};
ghost use Rattle.gx_boxes.specs.Tree.{AreTree, AreBelow, AreOffered, HasPassed, IsMore, IsInReach, boxes_of};

use crate::bounds::bounds_of;
use crate::part::Part;
use crate::{Boxed, misses};
use gx_num::{Extent, NoMemory, Ray};
use gx_offers::Offers;
use std::alloc::Global;
use std::marker::Model;

/// Boxes with numbers, parted again and again so that a ray passes by many of them at once.
#[derive(Drop)]
pub struct BoxTree {
    parts: Vec<Part>,
}

impl Model for BoxTree {
    ghost use Rattle.std.specs.Prelude.{List, map};
    ghost use Rattle.gx_boxes.specs.declared.boxed.Boxed.{Boxed};
    ghost use Rattle.gx_boxes.specs.Tree.{AreTree, boxes_of};

    ghost Value = { List Boxed };

    ghost view = { λ t. boxes_of t.parts.items };

    ghost invariant = { λ t. AreTree t.parts.items };
}

impl BoxTree {
    /// These boxes, in another order.
    pub fn new(alloc: Global, boxes: Vec<Boxed>) -> Result<BoxTree, NoMemory>
        requires { All (λ b. IsProper b.extent) boxes.items }
        ensures { IfOk result (λ t. IsPermutation boxes.items t) }
    {
        let mut boxes = boxes;
        let mut parts = Vec::with_capacity(alloc, boxes.len())?;
        if !boxes.is_empty() {
            push_tree(&mut boxes, &mut parts)?;
        }
        Ok(BoxTree { parts })
    }

    /// The numbers of the boxes that the ray meets come, and of others maybe.
    pub fn offer(&self, ray: &Ray, offers: &mut Offers)
        requires ray { IsNear ray.now }
        requires room { All (λ b. b.number < offers.old.room) self.now }
        ensures { IsOffered (IsMetAmong self.now ray.now) (map (λ b. b.number) self.now) offers.old offers.new }
    {
        offer_parts(&self.parts, ray, offers);
    }
}

fn offer_parts(parts: &[Part], ray: &Ray, offers: &mut Offers)
    requires ray { IsNear ray.now }
    requires tree { AreTree parts.now }
    requires room { AreBelow offers.old.room parts.now }
    ensures { AreOffered ray.now (boxes_of parts.now) offers.old offers.new }
{
    let mut rest = parts;
    while let Some((part, below)) = rest.split_first() {
        rest = pass(part, below, ray, offers);
    }
}

// Past a part; where the ray misses bounds, past all that they bound.
fn pass<'a>(part: &Part, below: &'a [Part], ray: &Ray, offers: &mut Offers) -> &'a [Part]
    requires ray { IsNear ray.now }
    requires tree { AreTree (part.now ∷ below.now) }
    requires room { AreBelow offers.old.room (part.now ∷ below.now) }
    ensures passed { HasPassed ray.now (part.now ∷ below.now) result.now offers.old offers.new }
    ensures less { length result.now < length (part.now ∷ below.now) }
{
    match part {
        Part::One(boxed) => {
            if !misses(&boxed.extent, ray) {
                offers.offer(boxed.number);
            }
            below
        }
        Part::Many { bounds, boxes } => {
            if misses(bounds, ray) {
                &below[2 * (*boxes - 1)..]
            } else {
                below
            }
        }
    }
}

// A tree of the boxes, of which there is one, comes after what is there.
fn push_tree(boxes: &mut [Boxed], parts: &mut Vec<Part>) -> Result<(), NoMemory>
    requires some { 0 < length boxes.old }
    requires reach { All (λ b. IsInReach b.extent) boxes.old }
    ensures { IfOk result (λ _. IsMore boxes.old parts.old.items parts.new.items) }
{
    if boxes.len() == 1 {
        parts.push(Part::One(boxes[0]))?;
        return Ok(());
    }
    let bounds = bounds_of(boxes);
    parts.push(Part::Many {
        bounds,
        boxes: boxes.len(),
    })?;
    let (front, back) = parted(boxes, widest(&bounds));
    push_tree(front, parts)?;
    push_tree(back, parts)
}

// The boxes in two, by where their middles are along an axis.
fn parted(boxes: &mut [Boxed], axis: u8) -> (&mut [Boxed], &mut [Boxed])
    requires { 1 < length boxes.old }
    ensures same { IsPermutation boxes.old (result.0.now ++ result.1.now) }
    ensures front { 0 < length result.0.now }
    ensures back { 0 < length result.1.now }
{
    boxes.sort_unstable_by_key(|boxed| centre(&boxed.extent, axis));
    let gap = widest_gap(boxes, axis);
    boxes.split_at_mut(gap)
}

// In the middle third of their order, where two that follow one another have their middles farthest apart.
fn widest_gap(boxes: &[Boxed], axis: u8) -> usize
    requires { 1 < length boxes.now }
    ensures some { 0 < result }
    ensures less { result < length boxes.now }
{
    let third = boxes.len() / 3;
    let mut found = boxes.len() / 2;
    let mut widest = 0;
    for i in third + 1..boxes.len() - third {
        let before = centre(&boxes[i - 1].extent, axis);
        let gap = centre(&boxes[i].extent, axis).wrapping_sub(before);
        if gap > widest {
            found = i;
            widest = gap;
        }
    }
    found
}

// Twice where the middle is, along an axis.
fn centre(extent: &Extent, axis: u8) -> i64 {
    let Extent { low, high } = *extent;
    match axis {
        0 => low.x.wrapping_add(high.x),
        1 => low.y.wrapping_add(high.y),
        _ => low.z.wrapping_add(high.z),
    }
}

// The axis on which an extent is widest.
fn widest(extent: &Extent) -> u8 {
    let Extent { low, high } = *extent;
    let x = high.x.wrapping_sub(low.x);
    let y = high.y.wrapping_sub(low.y);
    let z = high.z.wrapping_sub(low.z);
    if x >= y && x >= z {
        0
    } else if y >= z {
        1
    } else {
        2
    }
}
