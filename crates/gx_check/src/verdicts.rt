ghost use Rattle.std.specs.Prelude.{◌≡◌, ℕ, Bool, IsTrue, List, Option};
ghost use Rattle.gx_io.specs.Bytes.{HasCause, Writes};
ghost use Rattle.gx_check.specs.declared.verdict.Verdict.{Verdict as Given};

use crate::Verdict;
use gx_io::Failed;

/// What takes verdicts, one after another.
pub trait Verdicts {
    /// What it holds is a list of these; used in contracts alone.
    type Item;

    /// What it holds, where it is told.
    ghost held: { Self → Option (List Self.Item) };

    /// What stands for a verdict in it.
    ghost items: { Self → Given → List Self.Item };

    /// The verdicts that it may be given.
    ghost takes: { Self → Given → Bool };

    /// How often it has failed. It stays at the end of its type.
    ghost faults: { Self → ℕ };

    /// Takes a verdict. Where it fails, it may hold a front of what stands for it.
    fn verdict(&mut self, verdict: &Verdict) -> Result<(), Failed>
        requires { IsTrue (takes self.old verdict.now) }
        ensures given { Writes (held self.old) (held self.new) (items self.old verdict.now) result }
        ensures same_items { items self.new ≡ items self.old }
        ensures same_takes { takes self.new ≡ takes self.old }
        ensures cause { HasCause (faults self.old) (faults self.new) result };
}
