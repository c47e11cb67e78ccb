ghost use Rattle.std.specs.Prelude.{◌≡◌, ℕ, List, map, string_bytes, Some, None, IfOk};
ghost use Rattle.g4exact.specs.Commands.{command_of};
ghost use Rattle.g4exact.specs.Output.{IsOutput};
ghost use Rattle.g4exact.specs.declared.command.Command.TheVariants.{Reading, Sample};
ghost use Rattle.gx_reader.specs.Reading.{reading};
ghost use Rattle.gx_canon.specs.Canonical.{millimetre};
ghost use Rattle.gx_sample.specs.Text.{sample_text as text_of_sample};
ghost use Rattle.g4exact.specs.declared.outcome.Status.TheVariants.{ReadFault};
ghost use Rattle.g4exact.specs.Ends.{Ends, IsTold, IsRead, JudgesWords, NamesWords, Blames, HasFailed, RunsTo};
ghost use Rattle.g4exact.specs.Counters.{IsCounted, counters};

use crate::answer::answer;
use crate::command::{Command, Telling, Verb, command_from};
use crate::input::{read_input, read_text};
use crate::outcome::Status;
use gx_expr::Grid;
use gx_gather::TextFault;
use gx_io::{IoError, Sink, Source};
use gx_link::Input;
use gx_num::NoMemory;
use gx_print::print_usage;
use gx_sample::sample_text;
use gx_steps::Steps;
use std::alloc::Global;
use std::sync::ledger::Ledger;

/// Reads the text, and writes what the words ask for.
pub fn run<S: Source, K: Sink, T: Ledger, Q: Ledger>(
    alloc: Global,
    words: &[String],
    source: &mut S,
    sink: &mut K,
    tests: &mut Steps<T>,
    reads: &mut Steps<Q>,
) -> Status
    // What is written is the output for the words and the source's bytes: all of it, a front of it, or nothing, by the status;
    // where neither count of faults is the next one, all of it, unless memory was wanting. Daughters are tested and headers read
    // for the reports alone: no more than any test of boxes lets pass that passes each box in which a ray has a point, and no
    // less than the reports have paths to daughters, and to volumes with a header.
    ensures output { (text : List ℕ) × IsTold (S.left source.old) text
        × RunsTo (command_of (map string_bytes words.now)) text (K.written sink.old) (K.written sink.new)
        (HasFailed (S.faults source.old) (S.faults source.new) (K.faults sink.old) (K.faults sink.new)) result
        × IsCounted (command_of (map string_bytes words.now)) text (counters tests.old reads.old) (counters tests.new reads.new) result }

    // What is read: nothing, or everything up to one byte past the most of a text; at a fault or for want of memory, some of that.
    ensures read { IsRead (command_of (map string_bytes words.now)) (S.left source.old) (S.left source.new) result }

    // Words that are no command are judged without memory and without the source.
    ensures words { JudgesWords (command_of (map string_bytes words.now)) result }

    // At a device's fault its count is the next one, and else the counts are kept.
    ensures blames { Blames (S.faults source.old) (S.faults source.new) (K.faults sink.old) (K.faults sink.new) result }

    // After a read that failed there is no other.
    ensures last { result ≡ ReadFault → (before : S) × (S.faults before ≡ S.faults source.old) × S.fails before source.new }
{
    match command_from(alloc, words) {
        Some(command) => execute(alloc, command, source, sink, tests, reads),
        None => usage(sink),
    }
}

// Reads the source where the command does, and writes its output.
fn execute<S: Source, K: Sink, T: Ledger, Q: Ledger>(
    alloc: Global,
    command: Command,
    source: &mut S,
    sink: &mut K,
    tests: &mut Steps<T>,
    reads: &mut Steps<Q>,
) -> Status
    ensures output { (text : List ℕ) × IsTold (S.left source.old) text
        × Ends (Some command) (IsOutput (Some command) text) (K.written sink.old) (K.written sink.new) result
        × IsCounted (Some command) text (counters tests.old reads.old) (counters tests.new reads.new) result }
    ensures read { IsRead (Some command) (S.left source.old) (S.left source.new) result }
    ensures blames { Blames (S.faults source.old) (S.faults source.new) (K.faults sink.old) (K.faults sink.new) result }
    ensures last { result ≡ ReadFault → (before : S) × (S.faults before ≡ S.faults source.old) × S.fails before source.new }
{
    match command {
        Command::Reading { verb, grid } => read(alloc, verb, &grid, source, sink, tests, reads),
        Command::Sample { number } => sample(alloc, number, sink, tests, reads),
    }
}

// Reads the source, and writes what the verb writes of its text.
fn read<S: Source, K: Sink, T: Ledger, Q: Ledger>(
    alloc: Global,
    verb: Verb,
    grid: &Grid,
    source: &mut S,
    sink: &mut K,
    tests: &mut Steps<T>,
    reads: &mut Steps<Q>,
) -> Status
    ensures output { (text : List ℕ) × IsTold (S.left source.old) text
        × Ends (Some (Reading verb grid.now)) (IsOutput (Some (Reading verb grid.now)) text) (K.written sink.old) (K.written sink.new) result
        × IsCounted (Some (Reading verb grid.now)) text (counters tests.old reads.old) (counters tests.new reads.new) result }
    ensures read { IsRead (Some (Reading verb grid.now)) (S.left source.old) (S.left source.new) result }
    ensures blames { Blames (S.faults source.old) (S.faults source.new) (K.faults sink.old) (K.faults sink.new) result }
    ensures last { result ≡ ReadFault → (before : S) × (S.faults before ≡ S.faults source.old) × S.fails before source.new }
{
    match read_input(alloc, grid, source) {
        Ok(read) => answer(alloc, verb, read, sink, tests, reads),
        Err(IoError::Failed) => Status::ReadFault,
        Err(IoError::NoMemory) => Status::NoMemory,
    }
}

// Makes a sample's text, and writes how many rows its reports have.
fn sample<K: Sink, T: Ledger, Q: Ledger>(
    alloc: Global,
    number: u32,
    sink: &mut K,
    tests: &mut Steps<T>,
    reads: &mut Steps<Q>,
) -> Status
    ensures output { (text : List ℕ) → Ends (Some (Sample number)) (IsOutput (Some (Sample number)) text) (K.written sink.old) (K.written sink.new) result
        × IsCounted (Some (Sample number)) text (counters tests.old reads.old) (counters tests.new reads.new) result }
    ensures blames { (source : ℕ) → Blames source source (K.faults sink.old) (K.faults sink.new) result }
{
    match sample_input(alloc, number) {
        Ok(read) => answer(
            alloc,
            Verb::Trace(Telling::Summary(number)),
            read,
            sink,
            tests,
            reads,
        ),
        Err(NoMemory) => Status::NoMemory,
    }
}

// What the text of a sample declares.
fn sample_input(alloc: Global, number: u32) -> Result<Result<Input, TextFault>, NoMemory>
    ensures { IfOk result (λ read. reading millimetre (text_of_sample number) ≡ read) }
{
    let text = sample_text(alloc, number)?;
    read_text(alloc, &Grid::millimetre(), &text)
}

fn usage<K: Sink>(sink: &mut K) -> Status
    ensures output { (text : List ℕ) → Ends None (IsOutput None text) (K.written sink.old) (K.written sink.new) result }
    ensures words { NamesWords result }
    ensures blames { (source : ℕ) → Blames source source (K.faults sink.old) (K.faults sink.new) result }
{
    match print_usage(sink) {
        Ok(()) => Status::WordsFault,
        Err(_) => Status::WriteFault,
    }
}
