ghost use Rattle.std.specs.Prelude.{◌≡◌, ◌<◌, ℕ, List, Option, None};
ghost use Rattle.std.specs.Borrow.{GName};
ghost use Rattle.gx_io.specs.Bytes.{Grows};

use crate::{Failed, Sink};
use std::marker::{Brand, PhantomData};

/// How a sink was lent: the name of the reference, and what the sink had written.
pub trait Loan {
    ghost name: { GName };

    ghost written: { Option (List ℕ) };
}

impl Loan for Brand {
    ghost name = { 0 };

    ghost written = { None };
}

/// A sink that was lent. It stays behind that reference, and what it had written stays at the front.
#[derive(Drop)]
pub struct Lent<'a, K: Sink, L: Loan> {
    pub sink: &'a mut K,
    pub loan: PhantomData<L>,
    ghost same_reference: { sink.ghost_name ≡ L.name },
    ghost grows: { Grows L.written (K.written sink.now) },
}

impl<'a, K: Sink, L: Loan> Sink for Lent<'a, K, L> {
    ghost written = { λ s. K.written s.sink.now };

    ghost faults = { λ s. K.faults s.sink.now };

    fn write(&mut self, piece: &[u8]) -> Result<usize, Failed> {
        self.sink.write(piece)
    }
}
