ghost use Rattle.std.specs.Prelude.{◌≡◌, ℕ, ◌<◌, ◌≤◌, ◌+◌, Some, [], length, map, vec_capacity};
ghost use Rattle.std.specs.List.{All, AllByRecursion};
ghost use Rattle.std.specs.List.Sorted.{IsPermutation, IsSortedBy};
ghost use Rattle.gx_fraction.specs.Fraction.{parameter_of};
ghost use Rattle.gx_clip.specs.declared.span.Span.{Span as Part};
ghost use Rattle.gx_walk.specs.Hits.{Count, hit_of, hits_of};
ghost use Rattle.gx_walk.specs.Entry.{AreMet, is_earlier};

use crate::{Frame, Geometry, Met};
use gx_clip::Span;
use gx_offers::Offers;
use gx_steps::Steps;
use std::sync::ledger::Ledger;

// The daughters that the ray is inside somewhere, of a mother inside whom it is in a span, in the order of entry; of those that
// are entered at once, by ordinal. Those offered alone are tested.
pub fn collect<G: Geometry, T: Ledger, Q: Ledger>(
    geometry: &G,
    mother: &Frame,
    span: Span,
    offers: &mut Offers,
    hits: &mut Vec<Met>,
    tests: &mut Steps<T>,
    reads: &mut Steps<Q>,
)
    requires known { (n : ℕ) × G.knows geometry.now n mother.now span }
    requires offers { G.count_of geometry.now mother.now.volume ≤ offers.old.room }
    requires room { G.count_of geometry.now mother.now.volume ≤ vec_capacity hits.old }
    ensures hits { map hit_of hits.new.items ≡ hits_of (G.met_of geometry.now) (G.count_of geometry.now) mother.now }
    ensures known { All (λ m. G.met_of geometry.now mother.now m.ordinal ≡ Some m) hits.new.items }
    ensures offers { offers.new.room ≡ offers.old.room }
    ensures room { vec_capacity hits.new ≡ vec_capacity hits.old }
    ensures few_tests { (most reads : Count) → G.bounds geometry.now most reads → tests.new ≤ tests.old + most mother.now (parameter_of span.from) (parameter_of span.to) }
    ensures few_reads { (tests most : Count) → G.bounds geometry.now tests most → reads.new ≤ reads.old + most mother.now (parameter_of span.from) (parameter_of span.to) }
    ensures some_tests { tests.old + length hits.new.items ≤ tests.new }
    ensures some_reads { reads.old + G.least_reads geometry.now mother.now ≤ reads.new }
{
    offers.clear();
    geometry.offer(mother, span, offers, reads);
    meet_all(geometry, mother, offers.as_slice(), hits, tests);
    sort_by_entry(hits);
}

// Tests each daughter offered, and keeps those that are met.
fn meet_all<G: Geometry, T: Ledger>(
    geometry: &G,
    mother: &Frame,
    offered: &[u32],
    hits: &mut Vec<Met>,
    tests: &mut Steps<T>,
)
    requires known { (n : ℕ) × (span : Part) × G.knows geometry.now n mother.now span }
    requires below { AllByRecursion (λ k. k < G.count_of geometry.now mother.now.volume) offered.now }
    requires room { length offered.now ≤ vec_capacity hits.old }
    ensures met { AreMet (G.met_of geometry.now mother.now) offered.now hits.new.items }
    ensures few { length hits.new.items ≤ length offered.now }
    ensures room { vec_capacity hits.new ≡ vec_capacity hits.old }
    ensures tests { tests.new ≡ tests.old + length offered.now }
{
    hits.clear();
    for k in offered {
        if let Some(met) = geometry.meet(mother, *k, tests) {
            hits.push_reserved(met);
        }
    }
}

fn sort_by_entry(hits: &mut Vec<Met>)
    ensures permutation { IsPermutation hits.old.items hits.new.items }
    ensures sorted { IsSortedBy is_earlier hits.new.items }
    ensures room { vec_capacity hits.new ≡ vec_capacity hits.old }
{
    hits.sort_unstable_by(|a, b| {
        a.span
            .from
            .cmp(&b.span.from)
            .then(a.ordinal.cmp(&b.ordinal))
    });
}
