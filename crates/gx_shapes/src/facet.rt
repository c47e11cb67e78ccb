ghost use Rattle.std.specs.Prelude.{◌≡◌, ◌++◌, [], ◌∷◌, OnOk, IfOk};

use gx_num::{NoMemory, V3};
use std::alloc::Global;
use std::marker::Model;

/// A facet of three or four corners.
#[derive(Clone, Copy, Debug, PartialEq, Eq)]
pub struct Facet {
    pub a: V3,
    pub b: V3,
    pub c: V3,
    pub d: Option<V3>,
}

/// Facets. Contracts see the list.
#[derive(Drop)]
pub struct Facets {
    facets: Vec<Facet>,
}

impl Model for Facets {
    ghost use Rattle.std.specs.Prelude.{List};
    ghost use Rattle.gx_shapes.specs.declared.facet.Facet.{Facet};

    ghost Value = { List Facet };

    ghost view = { λ f. f.facets.items };
}

impl Facets {
    pub fn new(alloc: Global) -> Facets
        ensures { result ≡ [] }
    {
        Facets {
            facets: Vec::new(alloc),
        }
    }

    pub fn push(&mut self, facet: Facet) -> Result<(), NoMemory>
        ensures { OnOk result (self.new ≡ self.old ++ facet ∷ []) }
    {
        self.facets.push(facet)?;
        Ok(())
    }

    pub fn as_slice(&self) -> &[Facet]
        ensures { result.now ≡ self.now }
    {
        &self.facets
    }

    /// Equal facets.
    pub fn copy(&self, alloc: Global) -> Result<Facets, NoMemory>
        ensures { IfOk result (λ facets. facets ≡ self.now) }
    {
        Ok(Facets {
            facets: Vec::from_slice(alloc, &self.facets)?,
        })
    }
}
