ghost use Rattle.std.specs.Prelude.{◌≡◌, ◌<◌, ◌++◌, [], ◌∷◌, length, slice_get, slice_index, take, ◌-◌};
ghost use Rattle.gx_path.specs.Path.{max_length};

use smallvec::SmallVec;
use std::alloc::Global;
use std::marker::Model;

/// At most 32 ordinals, from the world down to a daughter. Contracts see the list. No call takes memory.
#[derive(Drop)]
pub struct Path {
    ordinals: SmallVec<u32, 32>,
}

impl Model for Path {
    ghost use Rattle.std.specs.Prelude.{◌≡◌, ◌≤◌, ℕ, List, length};
    ghost use Rattle.gx_path.specs.Path.{max_length};

    ghost Value = { List ℕ };

    ghost view = { λ p. p.ordinals.items };

    ghost invariant = { λ p. (length p.ordinals.items ≤ max_length) × (p.ordinals.capacity ≡ max_length) };
}

impl Path {
    /// The path of the world.
    #[tactic(auto, unfolding(crate::specs::Path::max_length))]
    pub fn new(alloc: Global) -> Path
        ensures { result ≡ [] }
    {
        Path {
            ordinals: SmallVec::new(alloc),
        }
    }

    #[tactic(auto, unfolding(crate::specs::Path::max_length))]
    pub fn push(&mut self, k: u32)
        requires { length self.old < max_length }
        ensures { self.new ≡ self.old ++ k ∷ [] }
    {
        self.ordinals.push_reserved(k);
    }

    /// Takes the last ordinal off.
    pub fn pop(&mut self) -> Option<u32>
        ensures last { result ≡ slice_get self.old (length self.old - 1) }
        ensures rest { self.new ≡ take (length self.old - 1) self.old }
    {
        self.ordinals.pop()
    }

    #[tactic(auto, unfolding(crate::specs::Path::max_length))]
    pub fn len(&self) -> u32
        ensures { result ≡ length self.now }
    {
        self.ordinals.len() as u32
    }

    pub fn at(&self, i: u32) -> u32
        requires { i < length self.now }
        ensures { result ≡ slice_index self.now i }
    {
        self.ordinals[i as usize]
    }

    /// An equal path.
    #[tactic(auto, unfolding(crate::specs::Path::max_length))]
    pub fn copy(&self) -> Path
        ensures { result ≡ self.now }
    {
        Path {
            ordinals: SmallVec::from_slice(*self.ordinals.allocator(), &self.ordinals).unwrap(),
        }
    }
}
