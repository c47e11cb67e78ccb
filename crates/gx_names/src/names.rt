ghost use Rattle.std.specs.Prelude.{◌≡◌, ◌<◌, ◌-◌, ◌^◌, [], length};

use crate::{NameFault, NameList};
use std::alloc::Global;
use std::marker::Model;

/// Names with their numbers, from 0 in the order in which they were defined. Contracts see the list of the names.
#[derive(Drop)]
pub struct Names {
    names: NameList,
}

impl Model for Names {
    ghost use Rattle.std.specs.Prelude.{◌<◌, ◌^◌, List, ℕ, length};

    ghost Value = { List (List ℕ) };

    ghost view = { λ n. n.names };

    ghost invariant = { λ n. length n.names < 2 ^ 32 };
}

impl Names {
    ghost use Rattle.gx_names.specs.Names.{number_of, Defines, AreDistinct};

    /// No names. Takes no memory.
    pub fn new(alloc: Global) -> Names
        ensures { result ≡ [] }
    {
        Names {
            names: NameList::new(alloc),
        }
    }

    /// Gives the name the next number. `Twice` where it has one. An error changes nothing.
    pub fn define(&mut self, name: &[u8]) -> Result<u32, NameFault>
        requires { length self.old < 2 ^ 32 - 1 }
        ensures { Defines self.old name.now self.new result }
    {
        if self.number(name).is_some() {
            return Err(NameFault::Twice);
        }
        let number = self.count();
        self.names.add(name)?;
        Ok(number)
    }

    /// The number of a name: None where it isn't defined.
    pub fn number(&self, name: &[u8]) -> Option<u32>
        ensures value { result ≡ number_of self.now name.now }
        ensures distinct { AreDistinct self.now }
    {
        self.names.place(name).map(|number| number as u32)
    }

    /// How many names there are.
    pub fn count(&self) -> u32
        ensures { result ≡ length self.now }
    {
        self.names.len() as u32
    }
}
