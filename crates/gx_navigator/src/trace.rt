ghost use Rattle.std.specs.Prelude.{◌≡◌, ℕ, IsTrue, ◌≤◌, ◌+◌, List, length, unsigned_abs, EachIndex, OnOk};
ghost use Rattle.gx_num.specs.declared.vector.TheConstants.{M};
ghost use Rattle.gx_num.specs.Vector.{IsWithin};
ghost use Rattle.gx_num.specs.Ray.{HasDirection};
ghost use Rattle.gx_io.specs.Bytes.{HasCause, Writes};
ghost use Rattle.gx_tree.specs.Hierarchy.{instances};
ghost use Rattle.gx_tree.specs.Deepest.{path_along};
ghost use Rattle.gx_path.specs.declared.row.Row.{Row as Given};
ghost use Rattle.gx_path.specs.Report.{Row, IsReport};
ghost use Rattle.gx_walk.specs.Hits.{Leads, items_of};
ghost use Rattle.gx_navigator.specs.Paths.{daughter_of};
ghost use Rattle.gx_navigator.specs.Tests.{BoxTest, IsBoxTest, IsCost, HasPaths, IsToDaughter, IsToHeader, tests_in, reads_in};

use crate::tracer::Tracer;
use gx_io::Failed;
use gx_num::Ray;
use gx_path::Rows;
use gx_sealed::Sealed;
use gx_steps::Steps;
use gx_walk::{Frame, Scratch, walk_world};
use std::sync::ledger::Ledger;

/// The rows of the ray's report, one after another. It ends with `Failed` at the first row that isn't taken. The scratch has
/// room for the daughters of each volume. It takes no memory. By any test of boxes that passes each box in which the ray has a
/// point: of each volume that the ray comes to it tests no more daughters than the cells that pass have members, and reads no
/// more than its headers and runs that pass add up to.
pub fn trace_ray<R: Rows, T: Ledger, Q: Ledger>(
    sealed: &Sealed,
    ray: &Ray,
    scratch: &mut Scratch,
    rows: &mut R,
    tests: &mut Steps<T>,
    reads: &mut Steps<Q>,
) -> Result<(), Failed>
    requires origin { IsWithin (unsigned_abs M) ray.now.o }
    requires direction { IsWithin (unsigned_abs M) ray.now.d }
    requires moves { HasDirection ray.now }
    requires room { EachIndex sealed.now.volumes (λ v. length (instances sealed.now v) ≤ scratch.old) }
    requires takes { (row : Given) (v : ℕ) → Leads (daughter_of sealed.now) sealed.now.world row.path v → IsTrue (R.takes rows.old row) }
    ensures report { (report : List Row) × IsReport (path_along sealed.now ray.now) report × Writes (R.held rows.old) (R.held rows.new) (items_of (R.items rows.old) report) result }
    ensures same_items { R.items rows.new ≡ R.items rows.old }
    ensures same_takes { R.takes rows.new ≡ R.takes rows.old }
    ensures cause { HasCause (R.faults rows.old) (R.faults rows.new) result }
    ensures room { scratch.new ≡ scratch.old }
    ensures few_tests { (passes : BoxTest) → IsBoxTest passes → (n : ℕ) × IsCost sealed.now (tests_in sealed.now passes) ray.now n × (tests.new ≤ tests.old + n) }
    ensures few_reads { (passes : BoxTest) → IsBoxTest passes → (n : ℕ) × IsCost sealed.now (reads_in sealed.now passes) ray.now n × (reads.new ≤ reads.old + n) }
    ensures some_tests { OnOk result ((report : List Row) → IsReport (path_along sealed.now ray.now) report → (n : ℕ) → HasPaths (IsToDaughter report) n → tests.old + n ≤ tests.new) }
    ensures some_reads { OnOk result ((report : List Row) → IsReport (path_along sealed.now ray.now) report → (n : ℕ) → HasPaths (IsToHeader sealed.now report) n → reads.old + n ≤ reads.new) }
{
    let Some(span) = sealed.world_span(ray) else {
        return Ok(());
    };
    let world = Frame {
        volume: sealed.world(),
        ray: *ray,
    };
    walk_world(
        &Tracer { sealed },
        &world,
        span,
        scratch,
        rows,
        tests,
        reads,
    )
}
