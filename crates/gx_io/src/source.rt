ghost use Rattle.std.specs.Prelude.{◌≡◌, ℕ, ◌<◌, ◌≤◌, List, Option, length, take, IfOk, OnErr};
ghost use Rattle.std.specs.Io.KnownBytes.{IsAtEnd};
ghost use Rattle.gx_io.specs.Bytes.{HasCause, with_before};

use crate::Failed;

/// What gives bytes.
pub trait Source {
    /// The bytes that are still to come, where they are told.
    ghost left: { Self → Option (List ℕ) };

    /// How often a read has failed. It stays at the end of its type.
    ghost faults: { Self → ℕ };

    /// A read that fails takes it from the one to the other.
    ghost fails: { Self → Self → Type 0 };

    /// Puts the next bytes at the front of the buffer. `Ok(0)` is the end.
    fn read(&mut self, buf: &mut [u8]) -> Result<usize, Failed>
        requires { 0 < length buf.old }
        ensures bound { IfOk result (λ n. n ≤ length buf.new) }
        ensures bytes { IfOk result (λ n. left self.old ≡ with_before (take n buf.new) (left self.new)) }
        ensures end { IfOk result (λ n. n ≡ 0 → IsAtEnd (left self.new)) }
        ensures err { OnErr result (left self.new ≡ left self.old) }
        ensures fails { OnErr result (fails self.old self.new) }
        ensures cause { HasCause (faults self.old) (faults self.new) result };
}
