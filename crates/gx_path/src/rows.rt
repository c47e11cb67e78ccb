ghost use Rattle.std.specs.Prelude.{◌≡◌, ℕ, Bool, IsTrue, List, Option};
ghost use Rattle.gx_io.specs.Bytes.{HasCause, Writes};
ghost use Rattle.gx_path.specs.declared.row.Row.{Row as Given};

use crate::Row;
use gx_io::Failed;

/// What takes rows, one after another.
pub trait Rows {
    /// What it holds is a list of these; used in contracts alone.
    type Item;

    /// What it holds, where it is told.
    ghost held: { Self → Option (List Self.Item) };

    /// What stands for a row in it.
    ghost items: { Self → Given → List Self.Item };

    /// The rows that it may be given.
    ghost takes: { Self → Given → Bool };

    /// How often it has failed. It stays at the end of its type.
    ghost faults: { Self → ℕ };

    /// Takes a row. Where it fails, it may hold a front of what stands for it.
    fn row(&mut self, row: &Row) -> Result<(), Failed>
        requires { IsTrue (takes self.old row.now) }
        ensures given { Writes (held self.old) (held self.new) (items self.old row.now) result }
        ensures same_items { items self.new ≡ items self.old }
        ensures same_takes { takes self.new ≡ takes self.old }
        ensures cause { HasCause (faults self.old) (faults self.new) result };
}
