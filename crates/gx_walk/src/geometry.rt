ghost use Rattle.std.specs.Prelude.{◌≡◌, ℕ, ◌<◌, ◌≤◌, ◌+◌, [], length, Option, Some};
ghost use Rattle.std.specs.List.{AllByRecursion};
ghost use Rattle.gx_fraction.specs.Fraction.{parameter_of};
ghost use Rattle.gx_clip.specs.declared.span.Span.{Span as Part};
ghost use Rattle.gx_offers.specs.Offers.{AreOffers, IsOneOf};
ghost use Rattle.gx_walk.specs.Hits.{Count};
ghost use Rattle.gx_walk.specs.declared.met.Frame.{Frame as At};
ghost use Rattle.gx_walk.specs.declared.met.Met.{Met as Hit};

use crate::{Frame, Met};
use gx_clip::Span;
use gx_offers::Offers;
use gx_steps::Steps;
use std::sync::ledger::Ledger;

/// Volumes with daughters, and where a ray is inside each.
pub trait Geometry {
    /// How many daughters a volume has.
    ghost count_of: { Self → ℕ → ℕ };

    /// The daughter with an ordinal, where the ray of a mother's frame is inside her at all.
    ghost met_of: { Self → At → ℕ → Option Hit };

    /// Which volume a mother's daughter is.
    ghost daughter_of: { Self → ℕ → ℕ → Option ℕ };

    /// The frames that it may be asked about, each with a span in which the ray is inside the volume, and with so many levels below
    /// them.
    ghost knows: { Self → ℕ → At → Part → Type 0 };

    /// By frames and the ends of spans: how many daughters are offered at most, and how much is read at most.
    ghost bounds: { Self → Count → Count → Type 0 };

    /// How much is read at least.
    ghost least_reads: { Self → At → ℕ };

    /// Offers the daughters that the ray may be inside.
    fn offer<Q: Ledger>(
        &self,
        mother: &Frame,
        span: Span,
        offers: &mut Offers,
        reads: &mut Steps<Q>,
    )
        requires known { (n : ℕ) × knows self.now n mother.now span }
        requires none { offers.old.numbers ≡ [] }
        requires room { count_of self.now mother.now.volume ≤ offers.old.room }
        ensures room { offers.new.room ≡ offers.old.room }
        ensures below { AllByRecursion (λ k. k < count_of self.now mother.now.volume) offers.new.numbers }
        ensures whole { (k : ℕ) (met : Hit) → k < count_of self.now mother.now.volume → met_of self.now mother.now k ≡ Some met → IsOneOf k offers.new.numbers }
        ensures few_tests { (most other : Count) → bounds self.now most other → length offers.new.numbers ≤ most mother.now (parameter_of span.from) (parameter_of span.to) }
        ensures few_reads { (other most : Count) → bounds self.now other most → reads.new ≤ reads.old + most mother.now (parameter_of span.from) (parameter_of span.to) }
        ensures some_reads { reads.old + least_reads self.now mother.now ≤ reads.new };

    /// Tests one daughter, which is one test more.
    fn meet<T: Ledger>(&self, mother: &Frame, ordinal: u32, tests: &mut Steps<T>) -> Option<Met>
        requires known { (n : ℕ) × (span : Part) × knows self.now n mother.now span }
        requires ordinal { ordinal < count_of self.now mother.now.volume }
        ensures met { result ≡ met_of self.now mother.now ordinal }
        ensures tests { tests.new ≡ tests.old + 1 };

    /// What is met has its ordinal, and is the mother's daughter.
    ghost meets: { (geometry : Self) (mother : At) (k : ℕ) (met : Hit) → met_of geometry mother k ≡ Some met
        → (met.ordinal ≡ k) × (daughter_of geometry mother.volume k ≡ Some met.frame.volume) };

    /// What is met in a frame that is known is known too, with one level fewer below it.
    ghost knows_met: { (geometry : Self) (mother : At) (n : ℕ) (span : Part) (k : ℕ) (met : Hit) → knows geometry (n + 1) mother span → met_of geometry mother k ≡ Some met → knows geometry n met.frame met.span };
}
