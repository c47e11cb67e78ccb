ghost use Rattle.std.specs.Prelude.{◌≡◌, ◌<◌, [], ◌∷◌, length, All, IsTrue, IfOk};
ghost use Rattle.gx_check.specs.Gives.{Gives};
ghost use Rattle.gx_check.specs.Verdicts.{verdicts, verdicts_in, daughter_verdict as daughter_verdict_of, pair_verdict, daughter_verdicts, verdicts_with, pair_verdicts, chosen, counts_of};

use crate::daughters::Daughters;
use crate::{CheckError, Counts, Selection, Verdict, Verdicts};
use gx_common::common_points;
use gx_contain::first_outside;
use gx_hull::Hull;
use gx_separate::plane_between;
use gx_tree::Hierarchy;
use std::alloc::Global;

/// Judges each daughter and then each pair of daughters, volume by volume, and gives the selected verdicts in this order. The
/// counts are of all verdicts. Where only those that refute are given, no plane is looked for. Memory is taken for one mother
/// after another.
pub fn check_tree<V: Verdicts>(
    alloc: Global,
    tree: &Hierarchy,
    selection: Selection,
    out: &mut V,
) -> Result<Counts, CheckError>
    requires { All (λ verdict. IsTrue (V.takes out.old verdict)) (verdicts tree.now) }
    ensures gives { Gives V.held V.items V.takes V.faults out.old out.new (chosen selection (verdicts tree.now)) result }
    ensures counts { IfOk result (λ counts. counts ≡ counts_of (verdicts tree.now)) }
{
    let mut counts = Counts::none();
    for mother in 0..tree.count() {
        counts = counts.plus(check_mother(alloc, tree, mother, selection, out)?);
    }
    Ok(counts)
}

// The same for one mother.
fn check_mother<V: Verdicts>(
    alloc: Global,
    tree: &Hierarchy,
    mother: u32,
    selection: Selection,
    out: &mut V,
) -> Result<Counts, CheckError>
    requires mother { mother < length tree.now.volumes }
    requires takes { All (λ verdict. IsTrue (V.takes out.old verdict)) (verdicts_in tree.now mother) }
    ensures gives { Gives V.held V.items V.takes V.faults out.old out.new (chosen selection (verdicts_in tree.now mother)) result }
    ensures counts { IfOk result (λ counts. counts ≡ counts_of (verdicts_in tree.now mother)) }
{
    let daughters = Daughters::placed(alloc, tree, mother)?;
    let outer = tree.solid(mother).hull();
    let judged = check_daughters(mother, outer, &daughters, selection, out)?;
    let paired = check_pairs(alloc, mother, &daughters, selection, out)?;
    Ok(judged.plus(paired))
}

fn check_daughters<V: Verdicts>(
    mother: u32,
    outer: &Hull,
    daughters: &Daughters,
    selection: Selection,
    out: &mut V,
) -> Result<Counts, CheckError>
    requires { All (λ verdict. IsTrue (V.takes out.old verdict)) (daughter_verdicts mother outer.now daughters.now) }
    ensures gives { Gives V.held V.items V.takes V.faults out.old out.new (chosen selection (daughter_verdicts mother outer.now daughters.now)) result }
    ensures counts { IfOk result (λ counts. counts ≡ counts_of (daughter_verdicts mother outer.now daughters.now)) }
{
    let mut counts = Counts::none();
    for ordinal in 0..daughters.count() {
        let verdict = daughter_verdict(mother, outer, daughters, ordinal);
        counts = counts.plus(give(&verdict, selection, out)?);
    }
    Ok(counts)
}

fn daughter_verdict(mother: u32, outer: &Hull, daughters: &Daughters, ordinal: u32) -> Verdict
    requires { ordinal < length daughters.now }
    ensures { result ≡ daughter_verdict_of mother outer.now daughters.now ordinal }
{
    match first_outside(outer, daughters.hull(ordinal)) {
        Some(point) => Verdict::Outer {
            mother,
            ordinal,
            point,
        },
        None => Verdict::Inner { mother, ordinal },
    }
}

fn check_pairs<V: Verdicts>(
    alloc: Global,
    mother: u32,
    daughters: &Daughters,
    selection: Selection,
    out: &mut V,
) -> Result<Counts, CheckError>
    requires { All (λ verdict. IsTrue (V.takes out.old verdict)) (pair_verdicts mother daughters.now) }
    ensures gives { Gives V.held V.items V.takes V.faults out.old out.new (chosen selection (pair_verdicts mother daughters.now)) result }
    ensures counts { IfOk result (λ counts. counts ≡ counts_of (pair_verdicts mother daughters.now)) }
{
    let mut counts = Counts::none();
    for first in 0..daughters.count() {
        counts = counts.plus(check_with(alloc, mother, daughters, first, selection, out)?);
    }
    Ok(counts)
}

// A daughter with each later one.
fn check_with<V: Verdicts>(
    alloc: Global,
    mother: u32,
    daughters: &Daughters,
    first: u32,
    selection: Selection,
    out: &mut V,
) -> Result<Counts, CheckError>
    requires first { first < length daughters.now }
    requires takes { All (λ verdict. IsTrue (V.takes out.old verdict)) (verdicts_with mother daughters.now first) }
    ensures gives { Gives V.held V.items V.takes V.faults out.old out.new (chosen selection (verdicts_with mother daughters.now first)) result }
    ensures counts { IfOk result (λ counts. counts ≡ counts_of (verdicts_with mother daughters.now first)) }
{
    let count = daughters.count();
    let mut counts = Counts::none();
    for second in first + 1..count {
        if selection.is_refuting() {
            if daughters.are_apart(first, second) {
                counts = counts.plus(Counts::pair());
                continue;
            }
        }
        counts = counts.plus(check_pair(alloc, mother, daughters, first, second, selection, out)?);
    }
    Ok(counts)
}

// A plane is looked for only where it is given.
fn check_pair<V: Verdicts>(
    alloc: Global,
    mother: u32,
    daughters: &Daughters,
    first: u32,
    second: u32,
    selection: Selection,
    out: &mut V,
) -> Result<Counts, CheckError>
    requires first { first < length daughters.now }
    requires second { second < length daughters.now }
    requires takes { IsTrue (V.takes out.old (pair_verdict mother daughters.now first second)) }
    ensures gives { Gives V.held V.items V.takes V.faults out.old out.new (chosen selection (pair_verdict mother daughters.now first second ∷ [])) result }
    ensures counts { IfOk result (λ counts. counts ≡ counts_of (pair_verdict mother daughters.now first second ∷ [])) }
{
    let (a, b) = (daughters.hull(first), daughters.hull(second));
    if let Some(points) = common_points(alloc, a, b)? {
        let overlap = Verdict::Overlap {
            mother,
            first,
            second,
            points,
        };
        return give(&overlap, selection, out);
    }
    if selection.is_refuting() {
        return Ok(Counts::pair());
    }
    let apart = Verdict::Apart {
        mother,
        first,
        second,
        plane: plane_between(a, b).unwrap(),
    };
    give(&apart, selection, out)
}

// Gives a verdict where it is selected, and counts it.
fn give<V: Verdicts>(
    verdict: &Verdict,
    selection: Selection,
    out: &mut V,
) -> Result<Counts, CheckError>
    requires { IsTrue (V.takes out.old verdict.now) }
    ensures gives { Gives V.held V.items V.takes V.faults out.old out.new (chosen selection (verdict.now ∷ [])) result }
    ensures counts { IfOk result (λ counts. counts ≡ counts_of (verdict.now ∷ [])) }
{
    if selection.has(verdict) {
        out.verdict(verdict)?;
    }
    Ok(Counts::of(verdict))
}
