ghost use Rattle.std.specs.Prelude.{◌≡◌, ◌∷◌, ◌++◌, [], ◌<◌, ◌+◌, length, IfOk};

use gx_num::NoMemory;
use std::alloc::Global;
use std::marker::Model;

/// Different numbers below a bound, in the order in which they came.
#[derive(Drop)]
pub struct Offers {
    list: Vec<u32>,
    marks: Vec<bool>,
}

impl Model for Offers {
    ghost use Rattle.std.specs.Prelude.{length, vec_capacity};
    ghost use Rattle.gx_offers.specs.Offers.{Offered};
    ghost use Rattle.gx_offers.specs.Marks.{AreMarked};

    ghost Value = { Offered };

    ghost view = { λ o. record { numbers = o.list.items; room = length o.marks.items } };

    ghost invariant = { λ o. AreMarked o.list.items o.marks.items (vec_capacity o.list) };
}

impl Offers {
    ghost use Rattle.gx_offers.specs.Offers.{AreOffers, with_number};

    /// No numbers, and room for all below a bound: no other call takes memory.
    pub fn new(alloc: Global, room: u32) -> Result<Offers, NoMemory>
        ensures { IfOk result (λ o. o ≡ record { numbers = []; room = room }) }
    {
        let list = Vec::with_capacity(alloc, room as usize)?;
        let marks = vec![in alloc; false; room as usize]?;
        Ok(Offers { list, marks })
    }

    /// The bound.
    pub fn room(&self) -> u32
        ensures { result ≡ self.now.room }
    {
        self.marks.len() as u32
    }

    /// A number comes, unless it is there already.
    #[tactic(auto, unfolding(crate::specs::Offers::with_number))]
    pub fn offer(&mut self, k: u32)
        requires { k < self.old.room }
        ensures { self.new ≡ with_number self.old k }
    {
        if !self.marks[k as usize] {
            self.marks[k as usize] = true;
            self.list.push_reserved(k);
        }
    }

    // The last number goes.
    fn forget_last(&mut self)
        requires { 0 < length self.old.numbers }
        ensures numbers { length self.old.numbers ≡ length self.new.numbers + 1 }
        ensures room { self.new.room ≡ self.old.room }
    {
        let k = self.list.take_last();
        self.marks[k as usize] = false;
    }

    /// All numbers go, in the time of as many steps.
    pub fn clear(&mut self)
        ensures { self.new ≡ record { numbers = []; room = self.old.room } }
    {
        while !self.list.is_empty() {
            self.forget_last();
        }
    }

    /// The numbers.
    pub fn as_slice(&self) -> &[u32]
        ensures numbers { result.now ≡ self.now.numbers }
        ensures offers { AreOffers self.now }
    {
        &self.list
    }
}
