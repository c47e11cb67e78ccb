ghost use Rattle.std.specs.Prelude.{◌≡◌, ◌≤◌, ◌<◌, ◌+◌, ◌-◌, ◌^◌, ℕ, min, length, EachIndex};
ghost use Rattle.gx_tree.specs.Hierarchy.{instances};
ghost use Rattle.gx_sealed.specs.Sealed.{IsSealed};
ghost use Rattle.g4exact.specs.declared.command.Verb.TheVariants.{Trace};
ghost use Rattle.g4exact.specs.declared.command.Telling.TheVariants.{Summary as Summed};
ghost use Rattle.g4exact.specs.Output.{AreRows, IsReported};
ghost use Rattle.gx_sample_clean.specs.Sample.{instances_of_all};
ghost use Rattle.g4exact.specs.Ends.{Answers, HasIoCause};
ghost use Rattle.g4exact.specs.Counters.{AreEnough, AreFew, RiseBy, status_of, counters};

use crate::outcome::Status;
use gx_gather::Rays;
use gx_io::{Failed, IoError, Sink};
use gx_navigator::{Scratch, trace_ray};
use gx_path::{Row, Rows};
use gx_print::{Summary, print_summary};
use gx_sealed::Sealed;
use gx_steps::Steps;
use std::alloc::Global;
use std::marker::{Brand, Model};
use std::sync::ledger::{Blank, Ledger};

// How many rows were taken. The count stands still at the end of its type.
#[derive(Drop)]
struct RowCount<L: Ledger> {
    count: u64,
    rows: Steps<L>,
}

impl<L: Ledger> Model for RowCount<L> {
    ghost use Rattle.std.specs.Prelude.{◌≡◌, ◌-◌, ◌^◌, ℕ, min};

    ghost Value = { ℕ };

    ghost view = { λ c. c.rows };

    ghost invariant = { λ c. c.count ≡ min c.rows (2 ^ 64 - 1) };
}

impl<L: Ledger> Rows for RowCount<L> {
    ghost use Rattle.std.specs.Prelude.{[], ◌∷◌, Some, true};
    ghost use Rattle.g4exact.specs.Marks.{marks};

    // A mark for each row.
    type Item = u8;

    ghost held = { λ rows. Some (marks rows) };

    ghost items = { λ _ _. 0 ∷ [] };

    ghost takes = { λ _ _. true };

    ghost faults = { λ _. 0 };

    fn row(&mut self, _row: &Row) -> Result<(), Failed> {
        self.count = self.count.saturating_add(1);
        self.rows.tick();
        Ok(())
    }
}

// How many rows the reports have.
fn count_rows<L: Ledger, T: Ledger, Q: Ledger>(
    sealed: &Sealed,
    rays: &Rays,
    scratch: &mut Scratch,
    blank: Blank,
    tests: &mut Steps<T>,
    reads: &mut Steps<Q>,
) -> u64
    requires name { blank.name ≡ L.name }
    requires parts { blank.parts ≡ L.parts }
    requires some { 0 < L.parts }
    requires kept { IsSealed sealed.now }
    requires room { EachIndex sealed.now.volumes (λ v. length (instances sealed.now v) ≤ scratch.old) }
    ensures rows { (n : ℕ) × AreRows sealed.now rays.now n × (result ≡ min n (2 ^ 64 - 1)) }
    ensures few { AreFew sealed.now rays.now (counters tests.old reads.old) (counters tests.new reads.new) }
    ensures enough { AreEnough sealed.now rays.now (counters tests.old reads.old) (counters tests.new reads.new) }
{
    let mut rows: RowCount<L> = RowCount {
        count: 0,
        rows: Steps::new(blank),
    };
    for i in 0..rays.count() {
        // A count takes every row.
        let _ = trace_ray(sealed, &rays.ray(i), scratch, &mut rows, tests, reads);
    }
    rows.count
}

// The daughters of all mothers, each mother once.
fn instances_of(sealed: &Sealed) -> u32
    ensures { result ≡ instances_of_all sealed.now }
{
    let mut all = 0;
    for v in 0..sealed.count() {
        all += sealed.daughters(v);
    }
    all
}

/// Writes how many rows the reports of rays have in a sealed hierarchy. All memory is taken before the first write.
pub fn write_summary<K: Sink, T: Ledger, Q: Ledger>(
    alloc: Global,
    number: u32,
    sealed: &Sealed,
    rays: &Rays,
    sink: &mut K,
    tests: &mut Steps<T>,
    reads: &mut Steps<Q>,
) -> Result<Status, IoError>
    ensures output { Answers (Trace (Summed number)) (IsReported (Summed number) sealed.now rays.now) (K.written sink.old) (K.written sink.new) result }
    ensures cause { HasIoCause (K.faults sink.old) (K.faults sink.new) result }
    ensures counts { RiseBy sealed.now rays.now (counters tests.old reads.old) (counters tests.new reads.new) (status_of result) }
{
    let mut scratch = Scratch::new(alloc, sealed.most_daughters())?;
    let rows = count_rows::<Brand, T, Q>(sealed, rays, &mut scratch, Blank::new(1), tests, reads);
    let summary = Summary {
        number,
        instances: instances_of(sealed),
        rays: rays.count(),
        rows,
    };
    print_summary(&summary, sink)?;
    Ok(Status::Clean)
}
