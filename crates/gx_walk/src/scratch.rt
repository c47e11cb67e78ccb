ghost use Rattle.std.specs.Prelude.{◌≡◌, IfOk};

use crate::Met;
use gx_num::NoMemory;
use gx_offers::Offers;
use std::alloc::Global;
use std::marker::Model;

/// Room for the daughters met at each of 32 levels, the world's first. Contracts see how many daughters.
#[derive(Drop)]
pub struct Scratch {
    pub(crate) levels: Vec<Vec<Met>>,
    pub(crate) offers: Offers,
    room: u32,
}

impl Model for Scratch {
    ghost use Rattle.std.specs.Prelude.{◌≡◌, ◌≤◌, ℕ, length, map, vec_capacity};
    ghost use Rattle.std.specs.List.{AllByRecursion};
    ghost use Rattle.gx_path.specs.Path.{max_length};

    ghost Value = { ℕ };

    ghost view = { λ s. s.room };

    ghost invariant = { λ s. (length s.levels.items ≡ max_length) × (s.room ≤ s.offers.room) × AllByRecursion (λ capacity. s.room ≤ capacity) (map vec_capacity s.levels.items) };
}

impl Scratch {
    /// Room for so many daughters at each level.
    #[tactic(auto, unfolding(gx_path::specs::Path::max_length))]
    pub fn new(alloc: Global, room: u32) -> Result<Scratch, NoMemory>
        ensures { IfOk result (λ scratch. scratch ≡ room) }
    {
        let mut levels = Vec::with_capacity(alloc, 32)?;
        for _ in 0..32u32 {
            levels.push(Vec::with_capacity(alloc, room as usize)?)?;
        }
        let offers = Offers::new(alloc, room)?;
        Ok(Scratch {
            levels,
            offers,
            room,
        })
    }

    pub fn room(&self) -> u32
        ensures { result ≡ self.now }
    {
        self.room
    }
}
