ghost use Rattle.std.specs.Prelude.{◌≡◌, ◌++◌, ◌∷◌, [], length, None, OnOk, OnErr};

use std::alloc::{AllocError, Global};
use std::collections::BTreeMap;
use std::marker::Model;

/// Names in the order in which they were defined. Contracts see the list of the names. A look-up compares some twenty
/// names at most, whatever the names are.
#[derive(Drop)]
pub struct NameList {
    alloc: Global,
    places: BTreeMap<Vec<u8>, usize>,
}

impl Model for NameList {
    ghost use Rattle.std.specs.Prelude.{List, ℕ};
    ghost use Rattle.gx_names.specs.Places.{names_of, IsNumbered};

    ghost Value = { List (List ℕ) };

    ghost view = { λ n. names_of (λ k. k.items) n.places.entries };

    ghost invariant = { λ n. IsNumbered (λ k. k.items) n.places.entries };
}

impl NameList {
    ghost use Rattle.gx_names.specs.Names.{number_of, AreDistinct};

    /// No names. Takes no memory.
    pub fn new(alloc: Global) -> NameList
        ensures { result ≡ [] }
    {
        NameList {
            alloc,
            places: BTreeMap::new(alloc),
        }
    }

    /// Puts a new name at the next place. An error changes nothing.
    pub fn add(&mut self, name: &[u8]) -> Result<(), AllocError>
        requires { number_of self.old name.now ≡ None }
        ensures ok { OnOk result (self.new ≡ self.old ++ name.now ∷ []) }
        ensures err { OnErr result (self.new ≡ self.old) }
    {
        let place = self.len();
        let name = Vec::from_slice(self.alloc, name)?;
        self.places.insert(name, place)?;
        Ok(())
    }

    /// The place of a name, from 0: None where it isn't defined.
    pub fn place(&self, name: &[u8]) -> Option<usize>
        ensures value { result ≡ number_of self.now name.now }
        ensures distinct { AreDistinct self.now }
    {
        self.places.get(name).copied()
    }

    /// How many names there are.
    pub fn len(&self) -> usize
        ensures { result ≡ length self.now }
    {
        self.places.len()
    }
}
