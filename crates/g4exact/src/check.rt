ghost use Rattle.std.specs.Prelude.{◌≡◌, List, IfOk, IfErr, OnOk, if◌then◌else◌};
ghost use Rattle.std.specs.List.{list_any};
ghost use Rattle.gx_io.specs.Bytes.{Writes};
ghost use Rattle.gx_check.specs.declared.verdict.Verdict.{Verdict as Given};
ghost use Rattle.gx_check.specs.Gives.{IsCheckCause};
ghost use Rattle.gx_check.specs.Verdicts.{verdicts, refutes, counts_of};
ghost use Rattle.gx_print.specs.Range.{is_in_range};
ghost use Rattle.gx_print.specs.Texts.{verdict_line};
ghost use Rattle.g4exact.specs.declared.command.Verb.TheVariants.{Check};
ghost use Rattle.g4exact.specs.declared.outcome.Status.TheVariants.{Clean, Refuted};
ghost use Rattle.g4exact.specs.Output.{verdict_lines, IsCheck};
ghost use Rattle.g4exact.specs.Ends.{Answers, HasIoCause};

use crate::outcome::Status;
use gx_check::{CheckError, Counts, Selection, Verdict, Verdicts, check_tree};
use gx_io::{Failed, IoError, Lent, Loan, Sink};
use gx_print::{print_counts, print_verdict};
use gx_tree::Hierarchy;
use std::alloc::Global;
use std::marker::{Brand, PhantomData};

// What takes verdicts on a hierarchy, and writes the line of each.
struct Lines<'a, K: Sink> {
    tree: &'a Hierarchy,
    sink: K,
}

impl<'a, K: Sink> Verdicts for Lines<'a, K> {
    type Item = u8;

    ghost held = { λ l. K.written l.sink };

    ghost items = { λ l v. verdict_line l.tree.now v };

    ghost takes = { λ l v. is_in_range l.tree.now v };

    ghost faults = { λ l. K.faults l.sink };

    fn verdict(&mut self, verdict: &Verdict) -> Result<(), Failed> {
        print_verdict(self.tree, verdict, &mut self.sink)
    }
}

// Checks a hierarchy, writes the verdicts, and gives the sink back.
fn check_lent<'a, K: Sink, L: Loan>(
    alloc: Global,
    tree: &'a Hierarchy,
    selection: Selection,
    sink: &'a mut K,
) -> (Result<Counts, CheckError>, &'a mut K)
    requires same_reference { sink.ghost_name ≡ L.name }
    requires written { K.written sink.old ≡ L.written }
    ensures same_reference { result.1.ghost_name ≡ sink.entry.ghost_name }
    ensures bytes { Writes (K.written sink.old) (K.written result.1.now) (verdict_lines selection tree.now) result.0 }
    ensures counts { IfOk result.0 (λ counts. counts ≡ counts_of (verdicts tree.now)) }
    ensures kept { OnOk result.0 (K.faults result.1.now ≡ K.faults sink.old) }
    ensures cause { IfErr result.0 (IsCheckCause (K.faults sink.old) (K.faults result.1.now)) }
{
    let lent: Lent<'a, K, L> = Lent {
        sink,
        loan: PhantomData,
    };
    let mut lines = Lines { tree, sink: lent };
    let result = check_tree(alloc, tree, selection, &mut lines);
    let Lines {
        tree: _,
        sink: lent,
    } = lines;
    let Lent { sink, loan: _ } = lent;
    (result, sink)
}

// Checks a hierarchy, and writes the selected verdicts.
fn print_verdicts<K: Sink>(
    alloc: Global,
    tree: &Hierarchy,
    selection: Selection,
    sink: &mut K,
) -> Result<Counts, CheckError>
    ensures bytes { Writes (K.written sink.old) (K.written sink.new) (verdict_lines selection tree.now) result }
    ensures counts { IfOk result (λ counts. counts ≡ counts_of (verdicts tree.now)) }
    ensures kept { OnOk result (K.faults sink.new ≡ K.faults sink.old) }
    ensures cause { IfErr result (IsCheckCause (K.faults sink.old) (K.faults sink.new)) }
{
    let (result, _sink) = check_lent::<K, Brand>(alloc, tree, selection, sink);
    result
}

fn status_of(counts: &Counts) -> Status
    ensures { (given : List Given) → counts.now ≡ counts_of given → result ≡ (if list_any refutes given then Refuted else Clean) }
{
    if counts.refuted > 0 {
        Status::Refuted
    } else {
        Status::Clean
    }
}

/// Checks a hierarchy, and writes the selected verdicts and the counts. Memory is taken between two writes.
pub fn write_check<K: Sink>(
    alloc: Global,
    selection: Selection,
    tree: &Hierarchy,
    sink: &mut K,
) -> Result<Status, IoError>
    ensures output { Answers (Check selection) (IsCheck selection tree.now) (K.written sink.old) (K.written sink.new) result }
    ensures cause { HasIoCause (K.faults sink.old) (K.faults sink.new) result }
{
    match print_verdicts(alloc, tree, selection, sink) {
        Ok(counts) => {
            print_counts(&counts, sink)?;
            Ok(status_of(&counts))
        }
        Err(CheckError::Out) => Err(IoError::Failed),
        Err(CheckError::NoMemory) => Err(IoError::NoMemory),
    }
}
