//! Chains of placements, by marks on volumes.

ghost use Rattle.std.specs.Prelude.{◌≡◌, ◌↔◌, ◌||◌, ◌++◌, [], ◌∷◌, ℕ, ◌<◌, nat_eq, true, length, set, IfOk, All, if◌then◌else◌};
ghost use Rattle.std.specs.List.{list_any};
ghost use Rattle.gx_tree.specs.Volume.{daughter_of};
ghost use Rattle.gx_tree.specs.Marks.{AreInRange, is_marked, IsLed, IsReached};

use crate::{Placement, Volume};
use gx_num::NoMemory;
use std::alloc::Global;

/// Marks the volumes that are placed.
pub fn mark(marks: &mut [bool], placements: &[Placement])
    requires { All (λ p. daughter_of p < length marks.old) placements.now }
    ensures { (w : ℕ) → is_marked marks.new w ≡ (is_marked marks.old w || list_any (λ p. nat_eq (daughter_of p) w) placements.now) }
{
    for placement in placements {
        marks[placement.volume() as usize] = true;
    }
}

/// Marks the daughters of the marked volumes alone.
pub fn daughters(alloc: Global, volumes: &[Volume], marks: &[bool]) -> Result<Vec<bool>, NoMemory>
    requires range { AreInRange volumes.now }
    requires count { length marks.now ≡ length volumes.now }
    ensures count { IfOk result (λ daughters. length daughters.items ≡ length volumes.now) }
    ensures led { IfOk result (λ daughters. (w : ℕ) → is_marked daughters.items w ≡ true ↔ IsLed volumes.now marks.now 1 w) }
{
    let mut daughters = vec![in alloc; false; volumes.len()]?;
    for (v, volume) in volumes.iter().enumerate() {
        if marks[v] {
            mark(&mut daughters, volume.placements());
        }
    }
    Ok(daughters)
}

/// Marks the volumes to which a chain of so many placements leads from a marked one.
pub fn after(
    alloc: Global,
    volumes: &[Volume],
    marks: Vec<bool>,
    steps: u32,
) -> Result<Vec<bool>, NoMemory>
    requires range { AreInRange volumes.now }
    requires count { length marks.items ≡ length volumes.now }
    ensures count { IfOk result (λ led. length led.items ≡ length volumes.now) }
    ensures led { IfOk result (λ led. (w : ℕ) → is_marked led.items w ≡ true ↔ IsLed volumes.now marks.items steps w) }
{
    let mut marks = marks;
    for _step in 0..steps {
        marks = daughters(alloc, volumes, &marks)?;
    }
    Ok(marks)
}

/// Marks the volumes to which some chain leads from a marked one, and those that are marked.
pub fn reached(alloc: Global, volumes: &[Volume], marks: &[bool]) -> Result<Vec<bool>, NoMemory>
    requires range { AreInRange volumes.now }
    requires count { length marks.now ≡ length volumes.now }
    ensures count { IfOk result (λ reached. length reached.items ≡ length volumes.now) }
    ensures reached { IfOk result (λ reached. (w : ℕ) → is_marked reached.items w ≡ true ↔ IsReached volumes.now marks.now w) }
{
    let mut reached = vec![in alloc; false; volumes.len()]?;
    let mut found = Vec::new(alloc);
    for (v, &marked) in marks.iter().enumerate() {
        if marked {
            find(&mut reached, &mut found, v)?;
        }
    }
    let mut next = 0;
    while next < found.len() {
        for placement in volumes[found[next]].placements() {
            find(&mut reached, &mut found, placement.volume() as usize)?;
        }
        next += 1;
    }
    Ok(reached)
}

// Marks the volume, and lists it where it wasn't marked.
fn find(marks: &mut Vec<bool>, found: &mut Vec<usize>, v: usize) -> Result<(), NoMemory>
    requires { v < length marks.old.items }
    ensures marks { IfOk result (λ _. marks.new.items ≡ set marks.old.items v true) }
    ensures found { IfOk result (λ _. found.new.items ≡ (if is_marked marks.old.items v then found.old.items else (found.old.items ++ v ∷ []))) }
{
    if !marks[v] {
        marks[v] = true;
        found.push(v)?;
    }
    Ok(())
}
