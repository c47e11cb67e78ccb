ghost use Rattle.std.specs.Prelude.{◌≡◌, ℕ, IsTrue, ◌≤◌, ◌+◌, OnOk};
ghost use Rattle.gx_io.specs.Bytes.{HasCause, Writes};
ghost use Rattle.gx_fraction.specs.Fraction.{parameter_of};
ghost use Rattle.gx_path.specs.Path.{max_length};
ghost use Rattle.gx_path.specs.declared.row.Row.{Row as Given};
ghost use Rattle.gx_partition.specs.Partition.{open_rows};
ghost use Rattle.gx_partition.specs.Walk.{pieces_of};
ghost use Rattle.gx_walk.specs.Hits.{Count, Leads, cost_of, hits_of, items_of, least_each, one_each};

use crate::emit::emit;
use crate::{Frame, Geometry, Scratch};
use gx_clip::Span;
use gx_io::Failed;
use gx_path::{Path, Row, Rows};
use gx_steps::Steps;
use std::sync::ledger::Ledger;

/// The rows of a ray that is inside the world strictly between the ends of a span: each row of the mother where the ray is
/// inside none of her daughters, down to 32 below the world. It ends at the first row that isn't taken. It takes no memory.
pub fn walk_world<G: Geometry, R: Rows, T: Ledger, Q: Ledger>(
    geometry: &G,
    world: &Frame,
    span: Span,
    scratch: &mut Scratch,
    rows: &mut R,
    tests: &mut Steps<T>,
    reads: &mut Steps<Q>,
) -> Result<(), Failed>
    requires known { G.knows geometry.now max_length world.now span }
    requires room { (v : ℕ) → G.count_of geometry.now v ≤ scratch.old }
    requires takes { (row : Given) (v : ℕ) → Leads (G.daughter_of geometry.now) world.now.volume row.path v → IsTrue (R.takes rows.old row) }
    ensures room { scratch.new ≡ scratch.old }
    ensures rows { Writes (R.held rows.old) (R.held rows.new) (items_of (R.items rows.old) (open_rows (pieces_of (hits_of (G.met_of geometry.now) (G.count_of geometry.now)) max_length (parameter_of span.from) (parameter_of span.to) world.now))) result }
    ensures same_items { R.items rows.new ≡ R.items rows.old }
    ensures same_takes { R.takes rows.new ≡ R.takes rows.old }
    ensures cause { HasCause (R.faults rows.old) (R.faults rows.new) result }
    ensures few_tests { (most other : Count) → G.bounds geometry.now most other → tests.new ≤ tests.old + cost_of most (hits_of (G.met_of geometry.now) (G.count_of geometry.now)) max_length (parameter_of span.from) (parameter_of span.to) world.now }
    ensures few_reads { (other most : Count) → G.bounds geometry.now other most → reads.new ≤ reads.old + cost_of most (hits_of (G.met_of geometry.now) (G.count_of geometry.now)) max_length (parameter_of span.from) (parameter_of span.to) world.now }
    ensures some_tests { OnOk result (tests.old + cost_of (one_each (hits_of (G.met_of geometry.now) (G.count_of geometry.now))) (hits_of (G.met_of geometry.now) (G.count_of geometry.now)) max_length (parameter_of span.from) (parameter_of span.to) world.now ≤ tests.new) }
    ensures some_reads { OnOk result (reads.old + cost_of (least_each (G.least_reads geometry.now)) (hits_of (G.met_of geometry.now) (G.count_of geometry.now)) max_length (parameter_of span.from) (parameter_of span.to) world.now ≤ reads.new) }
{
    let mut row = Row {
        from: span.from,
        to: span.to,
        path: Path::new(*scratch.levels.allocator()),
    };
    emit(
        geometry,
        world,
        span,
        scratch.levels.as_mut_slice(),
        &mut scratch.offers,
        &mut row,
        rows,
        tests,
        reads,
    )
}
