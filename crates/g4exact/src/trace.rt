ghost use Rattle.std.specs.Prelude.{◌≡◌, ◌≤◌, ℕ, List, length, find, EachIndex, Some};
ghost use Rattle.gx_io.specs.Bytes.{HasCause, Writes};
ghost use Rattle.gx_path.specs.Report.{row_of};
ghost use Rattle.gx_tree.specs.Hierarchy.{instances};
ghost use Rattle.gx_sealed.specs.Sealed.{IsSealed};
ghost use Rattle.gx_check.specs.Verdicts.{verdicts, refutes};
ghost use Rattle.gx_print.specs.Range.{is_path};
ghost use Rattle.gx_print.specs.Texts.{row_text};
ghost use Rattle.g4exact.specs.declared.command.Verb.TheVariants.{Trace};
ghost use Rattle.g4exact.specs.declared.command.Telling.{Telling};
ghost use Rattle.g4exact.specs.declared.command.Telling.TheVariants.{Rows};
ghost use Rattle.g4exact.specs.Output.{IsTrace, IsReported, IsRefuted, IsWritten};
ghost use Rattle.g4exact.specs.Ends.{Answers, HasIoCause};
ghost use Rattle.g4exact.specs.Counters.{Rise, RiseBy, AreCounted, status_of, counters};

use crate::command::Telling;
use crate::outcome::Status;
use crate::summary::write_summary;
use gx_check::Verdict;
use gx_check::laws::clean_where_unrefuted;
use gx_gather::Rays;
use gx_io::{Failed, IoError, Lent, Loan, Sink};
use gx_link::Input;
use gx_navigator::{Scratch, trace_ray};
use gx_path::{Row, Rows};
use gx_print::{print_ray, print_row, print_verdict};
use gx_sealed::{SealError, Sealed};
use gx_steps::Steps;
use gx_tree::Hierarchy;
use std::alloc::Global;
use std::marker::{Brand, PhantomData};
use std::sync::ledger::Ledger;

// What takes the rows of a report, and writes the line of each.
struct Lines<'a, K: Sink> {
    sealed: &'a Sealed,
    sink: K,
}

impl<'a, K: Sink> Rows for Lines<'a, K> {
    type Item = u8;

    ghost held = { λ l. K.written l.sink };

    ghost items = { λ l row. row_text l.sealed.now (row_of row.from row.to row.path) };

    ghost takes = { λ l row. is_path l.sealed.now l.sealed.now.world row.path };

    ghost faults = { λ l. K.faults l.sink };

    fn row(&mut self, row: &Row) -> Result<(), Failed> {
        print_row(self.sealed, row, &mut self.sink)
    }
}

// Writes each ray's head and report.
fn trace_rays<K: Sink, T: Ledger, Q: Ledger>(
    sealed: &Sealed,
    rays: &Rays,
    scratch: &mut Scratch,
    lines: &mut Lines<'_, K>,
    tests: &mut Steps<T>,
    reads: &mut Steps<Q>,
) -> Result<(), Failed>
    requires same { lines.old.sealed.now ≡ sealed.now }
    requires kept { IsSealed sealed.now }
    requires room { EachIndex sealed.now.volumes (λ v. length (instances sealed.now v) ≤ scratch.old) }
    ensures bytes { (bytes : List ℕ) × IsTrace sealed.now 1 rays.now bytes × Writes (K.written lines.old.sink) (K.written lines.new.sink) bytes result }
    ensures cause { HasCause (K.faults lines.old.sink) (K.faults lines.new.sink) result }
    ensures counts { Rise sealed.now rays.now (counters tests.old reads.old) (counters tests.new reads.new) result }
{
    for i in 0..rays.count() {
        let ray = rays.ray(i);
        print_ray(i + 1, &mut lines.sink)?;
        trace_ray(sealed, &ray, scratch, lines, tests, reads)?;
    }
    Ok(())
}

// The same, and gives the sink back.
fn trace_lent<'a, K: Sink, L: Loan, T: Ledger, Q: Ledger>(
    sealed: &'a Sealed,
    rays: &Rays,
    scratch: &mut Scratch,
    sink: &'a mut K,
    tests: &mut Steps<T>,
    reads: &mut Steps<Q>,
) -> (Result<(), Failed>, &'a mut K)
    requires same_reference { sink.ghost_name ≡ L.name }
    requires written { K.written sink.old ≡ L.written }
    requires kept { IsSealed sealed.now }
    requires room { EachIndex sealed.now.volumes (λ v. length (instances sealed.now v) ≤ scratch.old) }
    ensures same_reference { result.1.ghost_name ≡ sink.entry.ghost_name }
    ensures bytes { (bytes : List ℕ) × IsTrace sealed.now 1 rays.now bytes × Writes (K.written sink.old) (K.written result.1.now) bytes result.0 }
    ensures cause { HasCause (K.faults sink.old) (K.faults result.1.now) result.0 }
    ensures counts { Rise sealed.now rays.now (counters tests.old reads.old) (counters tests.new reads.new) result.0 }
{
    let lent: Lent<'a, K, L> = Lent {
        sink,
        loan: PhantomData,
    };
    let mut lines = Lines { sealed, sink: lent };
    let result = trace_rays(sealed, rays, scratch, &mut lines, tests, reads);
    let Lines {
        sealed: _,
        sink: lent,
    } = lines;
    let Lent { sink, loan: _ } = lent;
    (result, sink)
}

// Writes the reports of rays in a sealed hierarchy.
fn print_reports<K: Sink, T: Ledger, Q: Ledger>(
    sealed: &Sealed,
    rays: &Rays,
    scratch: &mut Scratch,
    sink: &mut K,
    tests: &mut Steps<T>,
    reads: &mut Steps<Q>,
) -> Result<(), Failed>
    requires kept { IsSealed sealed.now }
    requires room { EachIndex sealed.now.volumes (λ v. length (instances sealed.now v) ≤ scratch.old) }
    ensures bytes { (bytes : List ℕ) × IsTrace sealed.now 1 rays.now bytes × Writes (K.written sink.old) (K.written sink.new) bytes result }
    ensures cause { HasCause (K.faults sink.old) (K.faults sink.new) result }
    ensures counts { Rise sealed.now rays.now (counters tests.old reads.old) (counters tests.new reads.new) result }
{
    let (result, _sink) = trace_lent::<K, Brand, T, Q>(sealed, rays, scratch, sink, tests, reads);
    result
}

// Writes the reports of rays in a sealed hierarchy. The memory is taken before the first write.
fn write_rows<K: Sink, T: Ledger, Q: Ledger>(
    alloc: Global,
    sealed: &Sealed,
    rays: &Rays,
    sink: &mut K,
    tests: &mut Steps<T>,
    reads: &mut Steps<Q>,
) -> Result<Status, IoError>
    ensures output { Answers (Trace Rows) (IsReported Rows sealed.now rays.now) (K.written sink.old) (K.written sink.new) result }
    ensures cause { HasIoCause (K.faults sink.old) (K.faults sink.new) result }
    ensures counts { RiseBy sealed.now rays.now (counters tests.old reads.old) (counters tests.new reads.new) (status_of result) }
{
    let mut scratch = Scratch::new(alloc, sealed.most_daughters())?;
    print_reports(sealed, rays, &mut scratch, sink, tests, reads)?;
    Ok(Status::Clean)
}

// Writes what is told of the reports.
fn write_reports<K: Sink, T: Ledger, Q: Ledger>(
    alloc: Global,
    telling: Telling,
    sealed: &Sealed,
    rays: &Rays,
    sink: &mut K,
    tests: &mut Steps<T>,
    reads: &mut Steps<Q>,
) -> Result<Status, IoError>
    ensures output { Answers (Trace telling) (IsReported telling sealed.now rays.now) (K.written sink.old) (K.written sink.new) result }
    ensures cause { HasIoCause (K.faults sink.old) (K.faults sink.new) result }
    ensures counts { RiseBy sealed.now rays.now (counters tests.old reads.old) (counters tests.new reads.new) (status_of result) }
{
    match telling {
        Telling::Rows => write_rows(alloc, sealed, rays, sink, tests, reads),
        Telling::Summary(number) => write_summary(alloc, number, sealed, rays, sink, tests, reads),
    }
}

// Writes the verdict that refutes a hierarchy.
fn write_refuted<K: Sink>(
    tree: &Hierarchy,
    verdict: &Verdict,
    sink: &mut K,
) -> Result<Status, IoError>
    requires { find refutes (verdicts tree.now) ≡ Some verdict.now }
    ensures output { (telling : Telling) → Answers (Trace telling) (IsRefuted tree.now verdict.now) (K.written sink.old) (K.written sink.new) result }
    ensures cause { HasIoCause (K.faults sink.old) (K.faults sink.new) result }
{
    print_verdict(tree, verdict, sink)?;
    Ok(Status::Refuted)
}

/// Writes what is told of each ray's report; or where the hierarchy isn't clean, the first verdict that refutes it. All memory is
/// taken before the first write.
pub fn write_trace<K: Sink, T: Ledger, Q: Ledger>(
    alloc: Global,
    telling: Telling,
    input: Input,
    sink: &mut K,
    tests: &mut Steps<T>,
    reads: &mut Steps<Q>,
) -> Result<Status, IoError>
    ensures output { Answers (Trace telling) (IsWritten (Trace telling) input) (K.written sink.old) (K.written sink.new) result }
    ensures cause { HasIoCause (K.faults sink.old) (K.faults sink.new) result }
    ensures counts { AreCounted (find refutes (verdicts input.tree)) input (counters tests.old reads.old) (counters tests.new reads.new) (status_of result) }
{
    // A clean hierarchy has no verdict that refutes it.
    clean_where_unrefuted();
    let Input { tree, rays } = input;
    match Sealed::new(alloc, tree) {
        Ok(sealed) => write_reports(alloc, telling, &sealed, &rays, sink, tests, reads),
        Err(SealError::Refuted { tree, verdict }) => write_refuted(&tree, &verdict, sink),
        Err(SealError::NoMemory) => Err(IoError::NoMemory),
    }
}
