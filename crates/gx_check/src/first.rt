ghost use Rattle.std.specs.Prelude.{◌≡◌, ◌<◌, ◌↔◌, length, find, IfOk, IsNone};
ghost use Rattle.gx_check.specs.Clean.{IsClean};
ghost use Rattle.gx_check.specs.Verdicts.{verdicts, verdicts_in, daughter_verdicts, verdicts_with, pair_verdicts, refutes};

use crate::Verdict;
use crate::daughters::Daughters;
use gx_common::common_points;
use gx_contain::first_outside;
use gx_hull::Hull;
use gx_num::NoMemory;
use gx_tree::Hierarchy;
use std::alloc::Global;

/// The first verdict that refutes, in the order of all; none exactly where the hierarchy is clean. No plane is looked for.
pub fn first_refuted(alloc: Global, tree: &Hierarchy) -> Result<Option<Verdict>, NoMemory>
    ensures value { IfOk result (λ found. found ≡ find refutes (verdicts tree.now)) }
    ensures clean { IfOk result (λ found. IsNone found ↔ IsClean tree.now) }
{
    for mother in 0..tree.count() {
        let found = first_in(alloc, tree, mother)?;
        if found.is_some() {
            return Ok(found);
        }
    }
    Ok(None)
}

fn first_in(alloc: Global, tree: &Hierarchy, mother: u32) -> Result<Option<Verdict>, NoMemory>
    requires { mother < length tree.now.volumes }
    ensures { IfOk result (λ found. found ≡ find refutes (verdicts_in tree.now mother)) }
{
    let daughters = Daughters::placed(alloc, tree, mother)?;
    let outer = first_outer(mother, tree.solid(mother).hull(), &daughters);
    if outer.is_some() {
        return Ok(outer);
    }
    first_overlap(alloc, mother, &daughters)
}

fn first_outer(mother: u32, outer: &Hull, daughters: &Daughters) -> Option<Verdict>
    ensures { result ≡ find refutes (daughter_verdicts mother outer.now daughters.now) }
{
    for ordinal in 0..daughters.count() {
        if let Some(point) = first_outside(outer, daughters.hull(ordinal)) {
            return Some(Verdict::Outer {
                mother,
                ordinal,
                point,
            });
        }
    }
    None
}

fn first_overlap(
    alloc: Global,
    mother: u32,
    daughters: &Daughters,
) -> Result<Option<Verdict>, NoMemory>
    ensures { IfOk result (λ found. found ≡ find refutes (pair_verdicts mother daughters.now)) }
{
    for first in 0..daughters.count() {
        let found = first_overlap_with(alloc, mother, daughters, first)?;
        if found.is_some() {
            return Ok(found);
        }
    }
    Ok(None)
}

// The first of a daughter with a later one.
fn first_overlap_with(
    alloc: Global,
    mother: u32,
    daughters: &Daughters,
    first: u32,
) -> Result<Option<Verdict>, NoMemory>
    requires { first < length daughters.now }
    ensures { IfOk result (λ found. found ≡ find refutes (verdicts_with mother daughters.now first)) }
{
    let count = daughters.count();
    for second in first + 1..count {
        if daughters.are_apart(first, second) {
            continue;
        }
        let (a, b) = (daughters.hull(first), daughters.hull(second));
        if let Some(points) = common_points(alloc, a, b)? {
            return Ok(Some(Verdict::Overlap {
                mother,
                first,
                second,
                points,
            }));
        }
    }
    Ok(None)
}
