ghost use Rattle.std.specs.Prelude.{◌≡◌, List, [], ◌∷◌, ◌++◌, map, reverse, true, IsTrue, Some, IfOk};
ghost use Rattle.std.specs.List.{list_any};
ghost use Rattle.gx_num.specs.Vector4.{Vec4, lowest4};
ghost use Rattle.gx_convex.specs.Points.{distinct_by};
ghost use Rattle.gx_common.specs.Common.{is_same_point};

use crate::candidate::Candidate;
use gx_num::{Hp, NoMemory};
use std::alloc::Global;

/// The candidates in lowest terms, each point once, at its first place. A candidate that repeats the one before it is passed
/// over as it is.
pub fn distinct(alloc: Global, candidates: &[Candidate]) -> Result<Vec<Hp>, NoMemory>
    ensures { IfOk result (λ points. points.items ≡ distinct_by is_same_point [] (map lowest4 candidates.now)) }
{
    let mut points = Vec::new(alloc);
    let mut last = None;
    for candidate in candidates {
        if !is_repeated(&last, candidate) {
            add(&mut points, &candidate.point())?;
            last = Some(candidate.copy());
        }
    }
    Ok(points)
}

fn is_repeated(last: &Option<Candidate>, candidate: &Candidate) -> bool
    ensures { IsTrue result → last.now ≡ Some candidate.now }
{
    match last {
        Some(last) => last.is_copy(candidate),
        None => false,
    }
}

// Adds a point that isn't there.
fn add(points: &mut Vec<Hp>, point: &Hp) -> Result<(), NoMemory>
    ensures kept { IfOk result (λ _. (xs : List Vec4) → points.new.items ++ distinct_by is_same_point (reverse points.new.items) xs ≡ points.old.items ++ distinct_by is_same_point (reverse points.old.items) (point.now ∷ xs)) }
    ensures among { IfOk result (λ _. list_any (is_same_point point.now) points.new.items ≡ true) }
{
    if is_among(point, points) {
        return Ok(());
    }
    points.push(*point)?;
    Ok(())
}

fn is_among(point: &Hp, points: &[Hp]) -> bool
    ensures { result ≡ list_any (is_same_point point.now) points.now }
{
    points.iter().any(|other| is_same(point, other))
}

fn is_same(a: &Hp, b: &Hp) -> bool
    ensures { result ≡ is_same_point a.now b.now }
{
    a == b
}
