ghost use Rattle.std.specs.Prelude.{◌≡◌, ℕ, ◌+◌, ◌<◌, ◌≤◌, length, slice_get, unsigned_abs, IfOk, IfErr};
ghost use Rattle.std.specs.Option.{ForSome};
ghost use Rattle.gx_num.specs.declared.vector.TheConstants.{M};
ghost use Rattle.gx_num.specs.Vector.{IsWithin};
ghost use Rattle.gx_num.specs.Ray.{HasDirection};
ghost use Rattle.gx_clip.specs.Clip.{IsClip};
ghost use Rattle.gx_shapes.specs.Solid.{solid_of};
ghost use Rattle.gx_tree.specs.Hierarchy.{volume_at, instances};
ghost use Rattle.gx_frame.specs.Frames.{local_ray as local_ray_of, IsMet};
ghost use Rattle.gx_sealed.specs.Cells.{IsCells};
ghost use Rattle.gx_sealed.specs.Placed.{IsDaughter};
ghost use Rattle.gx_sealed.specs.Sealed.{IsSealed, IsSealCause, IsMostDaughters, IsTraceable};

use crate::cells::all_cells;
use crate::enter::local_ray;
use crate::placed::{Daughter, all_daughters};
use crate::solid::span_in;
use crate::{Cells, SealError};
use gx_boxes::misses;
use gx_check::first_refuted;
use gx_clip::Span;
use gx_num::Ray;
use gx_steps::Steps;
use gx_tree::Hierarchy;
use std::alloc::Global;
use std::marker::Model;
use std::sync::ledger::Ledger;

/// A clean hierarchy, sealed for tracing. Volumes go by their numbers, and the daughters of a mother by their ordinals.
/// Contracts see the hierarchy.
#[derive(Drop)]
pub struct Sealed {
    tree: Hierarchy,
    // Those of each volume, for one look at a daughter.
    daughters: Vec<Vec<Daughter>>,
    cells: Vec<Cells>,
}

/// A step down into a daughter: her volume and her copy number.
#[derive(Clone, Copy, Debug, PartialEq, Eq)]
pub struct Step {
    pub volume: u32,
    pub copy: i32,
}

impl Model for Sealed {
    ghost use Rattle.std.specs.Prelude.{◌≡◌, map};
    ghost use Rattle.gx_tree.specs.Hierarchy.{Hierarchy};
    ghost use Rattle.gx_sealed.specs.Sealed.{IsSealed};
    ghost use Rattle.gx_sealed.specs.Placed.{all_daughters};
    ghost use Rattle.gx_sealed.specs.Cells.{AreCells};

    ghost Value = { Hierarchy };

    ghost view = { λ s. s.tree };

    ghost invariant = { λ s. IsSealed s.tree × (map (λ d. d.items) s.daughters.items ≡ all_daughters s.tree) × AreCells s.tree s.cells.items };
}

impl Sealed {
    /// The hierarchy, sealed, where it is clean; else it is handed back with the first verdict that refutes it. It is dropped
    /// where memory is wanting. No other call takes memory.
    pub fn new(alloc: Global, tree: Hierarchy) -> Result<Sealed, SealError>
        ensures ok { IfOk result (λ sealed. sealed ≡ tree) }
        ensures kept { IfOk result IsSealed }
        ensures err { IfErr result (IsSealCause tree) }
    {
        if let Some(verdict) = first_refuted(alloc, &tree)? {
            return Err(SealError::Refuted { tree, verdict });
        }
        // What each hierarchy keeps is known from here on.
        let _ = tree.world();
        let daughters = all_daughters(alloc, &tree)?;
        let cells = all_cells(alloc, &tree, &daughters)?;
        Ok(Sealed {
            tree,
            daughters,
            cells,
        })
    }

    /// The number of the world.
    pub fn world(&self) -> u32
        ensures value { result ≡ self.now.world }
        ensures kept { IsSealed self.now }
    {
        self.tree.world()
    }

    /// How many volumes there are.
    pub fn count(&self) -> u32
        ensures value { result ≡ length self.now.volumes }
        ensures kept { IsSealed self.now }
    {
        self.tree.count()
    }

    pub fn name(&self, v: u32) -> &[u8]
        requires { v < length self.now.volumes }
        ensures value { result.now ≡ (volume_at self.now.volumes v).name }
        ensures kept { IsSealed self.now }
    {
        self.tree.name(v)
    }

    /// How many daughters the volume has.
    pub fn daughters(&self, mother: u32) -> u32
        requires { mother < length self.now.volumes }
        ensures value { result ≡ length (instances self.now mother) }
        ensures few { result ≤ 4096 }
        ensures kept { IsSealed self.now }
    {
        self.tree.instances(mother)
    }

    /// The greatest number of daughters of a volume.
    pub fn most_daughters(&self) -> u32
        ensures most { IsMostDaughters self.now result }
        ensures few { result ≤ 4096 }
        ensures kept { IsSealed self.now }
    {
        let mut most = self.tree.instances(self.tree.world());
        for v in 0..self.tree.count() {
            most = most.max(self.tree.instances(v));
        }
        most
    }

    /// The step into the daughter with this ordinal.
    pub fn step(&self, mother: u32, k: u32) -> Step
        requires mother { mother < length self.now.volumes }
        requires ordinal { k < length (instances self.now mother) }
        ensures volume { ForSome (slice_get (instances self.now mother) k) (λ i. result.volume ≡ i.volume) }
        ensures copy { ForSome (slice_get (instances self.now mother) k) (λ i. result.copy ≡ i.copy) }
        ensures kept { IsSealed self.now }
    {
        let instance = self.daughter(mother, k).instance;
        Step {
            volume: instance.volume,
            copy: instance.copy,
        }
    }

    /// The part of the ray above 0 that is inside the world.
    pub fn world_span(&self, ray: &Ray) -> Option<Span>
        requires { IsTraceable ray.now }
        ensures value { IsClip (solid_of (volume_at self.now.volumes self.now.world).solid) ray.now result }
        ensures kept { IsSealed self.now }
    {
        span_in(self.tree.solid(self.tree.world()), ray)
    }

    /// The part of a ray of the mother's frame above 0 that is inside the daughter with this ordinal. It is one test.
    pub fn clip<L: Ledger>(
        &self,
        mother: u32,
        k: u32,
        ray: &Ray,
        tests: &mut Steps<L>,
    ) -> Option<Span>
        requires mother { mother < length self.now.volumes }
        requires ordinal { k < length (instances self.now mother) }
        requires ray { IsTraceable ray.now }
        ensures met { ForSome (slice_get (instances self.now mother) k) (λ i. IsMet self.now i ray.now result) }
        ensures tests { tests.new ≡ tests.old + 1 }
        ensures kept { IsSealed self.now }
    {
        tests.tick();
        let Daughter { instance, extent } = self.daughter(mother, k);
        if misses(extent, ray) {
            return None;
        }
        span_in(self.tree.solid(instance.volume), &local_ray(instance, ray))
    }

    /// A ray of the mother's frame in the frame of the daughter with this ordinal. Its origin is at most M farther out on each
    /// axis.
    pub fn enter(&self, mother: u32, k: u32, ray: &Ray) -> Ray
        requires mother { mother < length self.now.volumes }
        requires ordinal { k < length (instances self.now mother) }
        requires ray { IsTraceable ray.now }
        ensures value { ForSome (slice_get (instances self.now mother) k) (λ i. result ≡ local_ray_of i ray.now) }
        ensures origin { (bound : ℕ) → IsWithin bound ray.now.o → IsWithin (bound + unsigned_abs M) result.o }
        ensures direction { (bound : ℕ) → IsWithin bound ray.now.d → IsWithin bound result.d }
        ensures moves { HasDirection result }
        ensures kept { IsSealed self.now }
    {
        local_ray(&self.daughter(mother, k).instance, ray)
    }

    /// What the space of a mother is cut into.
    pub fn cells(&self, mother: u32) -> &Cells
        requires { mother < length self.now.volumes }
        ensures cells { IsCells self.now mother result.now }
        ensures kept { IsSealed self.now }
    {
        &self.cells[mother as usize]
    }

    fn daughter(&self, mother: u32, k: u32) -> &Daughter
        requires mother { mother < length self.now.volumes }
        requires ordinal { k < length (instances self.now mother) }
        ensures daughter { IsDaughter self.now mother k result.now }
        ensures kept { IsSealed self.now }
    {
        &self.daughters[mother as usize][k as usize]
    }
}
