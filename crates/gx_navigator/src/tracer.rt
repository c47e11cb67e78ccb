ghost use Rattle.std.specs.Prelude.{◌≡◌, ◌<◌, length};
ghost use Rattle.gx_fraction.specs.Fraction.{parameter_of};
ghost use Rattle.gx_tree.specs.Hierarchy.{instances};
ghost use Rattle.gx_along.specs.Line.{IsStretch};
ghost use Rattle.gx_navigator.specs.Paths.{daughter_of};
ghost use Rattle.gx_navigator.specs.Tests.{stretch_between};
ghost use Rattle.gx_navigator.specs.Tracer.{IsBound, IsKnown, knows_met, least_of, meets, met_of, place};

use gx_along::{Stretch, Time};
use gx_clip::Span;
use gx_descend::descend;
use gx_fraction::Frac;
use gx_offers::Offers;
use gx_sealed::{Cells, Sealed};
use gx_slabs::offer_copies;
use gx_steps::Steps;
use gx_walk::{Frame, Geometry, Met};
use std::sync::ledger::Ledger;

// A sealed hierarchy, as the walk asks about it.
#[derive(Drop)]
pub struct Tracer<'a> {
    pub sealed: &'a Sealed,
}

fn time_of(fraction: Frac) -> Time
    ensures num { result.num ≡ (parameter_of fraction).num }
    ensures den { result.den ≡ (parameter_of fraction).den }
{
    Time {
        num: fraction.num().unsigned_abs(),
        den: fraction.den().unsigned_abs(),
    }
}

fn stretch_of(span: Span) -> Stretch
    ensures value { result ≡ stretch_between (parameter_of span.from) (parameter_of span.to) }
    ensures stretch { IsStretch result }
{
    Stretch {
        from: time_of(span.from),
        to: time_of(span.to),
    }
}

impl Geometry for Tracer<'_> {
    ghost count_of = { λ t v. length (instances t.sealed.now v) };

    ghost met_of = { λ t. met_of t.sealed.now };

    ghost daughter_of = { λ t. daughter_of t.sealed.now };

    ghost knows = { λ t. IsKnown t.sealed.now };

    ghost bounds = { λ t. IsBound t.sealed.now };

    ghost least_reads = { λ t f. least_of t.sealed.now (place f) };

    ghost meets = { λ t. meets t.sealed.now };

    ghost knows_met = { λ t. knows_met t.sealed.now };

    fn offer<Q: Ledger>(
        &self,
        mother: &Frame,
        span: Span,
        offers: &mut Offers,
        reads: &mut Steps<Q>,
    ) {
        let stretch = stretch_of(span);
        match self.sealed.cells(mother.volume) {
            Cells::Tree(proxy) => descend(proxy, &mother.ray, stretch, offers, reads),
            Cells::Replicas {
                axis,
                low,
                width,
                count,
            } => offer_copies(*axis, *low, *width, *count, &mother.ray, stretch, offers),
        }
    }

    fn meet<T: Ledger>(&self, mother: &Frame, ordinal: u32, tests: &mut Steps<T>) -> Option<Met> {
        let volume = mother.volume;
        let span = self.sealed.clip(volume, ordinal, &mother.ray, tests)?;
        let frame = Frame {
            volume: self.sealed.step(volume, ordinal).volume,
            ray: self.sealed.enter(volume, ordinal, &mother.ray),
        };
        Some(Met {
            ordinal,
            span,
            frame,
        })
    }
}
