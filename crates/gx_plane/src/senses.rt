ghost use Rattle.std.specs.Prelude.{◌≡◌, ◌&&◌, not};

/// In which senses a plane has no point beyond it: as it is, and flipped.
#[derive(Clone, Copy)]
pub struct Senses {
    pub forward: bool,
    pub backward: bool,
}

impl Senses {
    /// Those in which a plane is between points that have these senses and others.
    pub fn with_others(self, others: Senses) -> Senses
        ensures forward { result.forward ≡ (self.forward && others.backward) }
        ensures backward { result.backward ≡ (self.backward && others.forward) }
    {
        Senses {
            forward: self.forward && others.backward,
            backward: self.backward && others.forward,
        }
    }

    /// Neither is left.
    pub fn are_refuted(self) -> bool
        ensures { result ≡ (not self.forward && not self.backward) }
    {
        !self.forward && !self.backward
    }
}
