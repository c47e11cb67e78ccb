ghost use Rattle.std.specs.Prelude.{◌≡◌, ℕ, IsTrue, ◌≤◌, ◌+◌, ◌≤ℤ◌, pos, length, map, vec_capacity, OnOk};
ghost use Rattle.gx_io.specs.Bytes.{HasCause, Writes};
ghost use Rattle.gx_fraction.specs.Fraction.{parameter_of};
ghost use Rattle.gx_path.specs.Path.{max_length};
ghost use Rattle.gx_path.specs.declared.row.Row.{Row as Given};
ghost use Rattle.gx_walk.specs.Hits.{Count, cost_of, hits_of, one_each, least_each};
ghost use Rattle.gx_walk.specs.Giving.{HaveRoom, TakesBelow, between, items_below, rows_of};

use crate::collect::collect;
use crate::{Frame, Geometry, Met};
use gx_clip::Span;
use gx_fraction::Frac;
use gx_io::Failed;
use gx_offers::Offers;
use gx_path::{Row, Rows};
use gx_steps::Steps;
use std::sync::ledger::Ledger;

// The rows of a volume that the ray is inside in a span, looked into as deep as there are levels. The row
// that is given over and over holds the path.
#[expect(clippy::too_many_arguments)]
pub fn emit<G: Geometry, R: Rows, T: Ledger, Q: Ledger>(
    geometry: &G,
    frame: &Frame,
    span: Span,
    levels: &mut [Vec<Met>],
    offers: &mut Offers,
    row: &mut Row,
    rows: &mut R,
    tests: &mut Steps<T>,
    reads: &mut Steps<Q>,
) -> Result<(), Failed>
    requires known { G.knows geometry.now (length levels.old) frame.now span }
    requires offers { (v : ℕ) → G.count_of geometry.now v ≤ offers.old.room }
    requires room { HaveRoom (G.count_of geometry.now) (map vec_capacity levels.old) }
    requires path { length row.old.path + length levels.old ≤ max_length }
    requires takes { TakesBelow (R.takes rows.old) (G.daughter_of geometry.now) row.old.path frame.now.volume }
    ensures room { map vec_capacity levels.new ≡ map vec_capacity levels.old }
    ensures path { OnOk result (row.new.path ≡ row.old.path) }
    ensures rows { Writes (R.held rows.old) (R.held rows.new) (items_below (R.items rows.old) row.old.path (rows_of (hits_of (G.met_of geometry.now) (G.count_of geometry.now)) (length levels.old) (parameter_of span.from) (parameter_of span.to) frame.now)) result }
    ensures same_items { R.items rows.new ≡ R.items rows.old }
    ensures same_takes { R.takes rows.new ≡ R.takes rows.old }
    ensures cause { HasCause (R.faults rows.old) (R.faults rows.new) result }
    ensures offers { offers.new.room ≡ offers.old.room }
    ensures few_tests { (most other : Count) → G.bounds geometry.now most other → tests.new ≤ tests.old + cost_of most (hits_of (G.met_of geometry.now) (G.count_of geometry.now)) (length levels.old) (parameter_of span.from) (parameter_of span.to) frame.now }
    ensures few_reads { (other most : Count) → G.bounds geometry.now other most → reads.new ≤ reads.old + cost_of most (hits_of (G.met_of geometry.now) (G.count_of geometry.now)) (length levels.old) (parameter_of span.from) (parameter_of span.to) frame.now }
    ensures some_tests { OnOk result (tests.old + cost_of (one_each (hits_of (G.met_of geometry.now) (G.count_of geometry.now))) (hits_of (G.met_of geometry.now) (G.count_of geometry.now)) (length levels.old) (parameter_of span.from) (parameter_of span.to) frame.now ≤ tests.new) }
    ensures some_reads { OnOk result (reads.old + cost_of (least_each (G.least_reads geometry.now)) (hits_of (G.met_of geometry.now) (G.count_of geometry.now)) (length levels.old) (parameter_of span.from) (parameter_of span.to) frame.now ≤ reads.new) }
{
    let Some((level, deeper)) = levels.split_first_mut() else {
        return give(span.from, span.to, row, rows);
    };
    let within = span;
    collect(geometry, frame, within, offers, level, tests, reads);
    let mut at = span.from;
    for met in level.iter() {
        give(at, met.span.from, row, rows)?;
        row.path.push(met.ordinal);
        emit(
            geometry, &met.frame, met.span, deeper, offers, row, rows, tests, reads,
        )?;
        row.path.pop();
        at = met.span.to;
    }
    give(at, span.to, row, rows)
}

// The row of the mother herself, where anything lies between the two ends.
fn give<R: Rows>(from: Frac, to: Frac, row: &mut Row, rows: &mut R) -> Result<(), Failed>
    requires from { pos 0 ≤ℤ from.num }
    requires to { pos 0 ≤ℤ to.num }
    requires takes { (given : Given) → given.path ≡ row.old.path → IsTrue (R.takes rows.old given) }
    ensures path { row.new.path ≡ row.old.path }
    ensures rows { Writes (R.held rows.old) (R.held rows.new) (items_below (R.items rows.old) row.old.path (between (parameter_of from) (parameter_of to))) result }
    ensures same_items { R.items rows.new ≡ R.items rows.old }
    ensures same_takes { R.takes rows.new ≡ R.takes rows.old }
    ensures cause { HasCause (R.faults rows.old) (R.faults rows.new) result }
{
    if from.cmp(&to).is_lt() {
        row.from = from;
        row.to = to;
        return rows.row(row);
    }
    Ok(())
}
