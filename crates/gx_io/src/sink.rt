ghost use Rattle.std.specs.Prelude.{◌≡◌, ℕ, ◌<◌, ◌≤◌, List, Option, length, take, IfOk, OnErr};
ghost use Rattle.gx_io.specs.Bytes.{HasCause, with_after};

use crate::Failed;

/// What takes bytes.
pub trait Sink {
    /// The bytes that were taken, where they are told.
    ghost written: { Self → Option (List ℕ) };

    /// How often a write has failed. It stays at the end of its type.
    ghost faults: { Self → ℕ };

    /// Takes at least one byte from the front of the piece.
    fn write(&mut self, piece: &[u8]) -> Result<usize, Failed>
        requires { 0 < length piece.now }
        ensures some { IfOk result (λ n. 0 < n) }
        ensures bound { IfOk result (λ n. n ≤ length piece.now) }
        ensures bytes { IfOk result (λ n. written self.new ≡ with_after (written self.old) (take n piece.now)) }
        ensures err { OnErr result (written self.new ≡ written self.old) }
        ensures cause { HasCause (faults self.old) (faults self.new) result };
}
