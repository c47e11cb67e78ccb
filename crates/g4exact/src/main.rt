//! Reads a detector geometry and rays as text, and writes each ray's exact report.
#![tactic(auto)]

mod answer;
mod check;
mod command;
mod fault;
mod input;
pub mod laws;
mod list;
mod outcome;
mod run;
mod summary;
#[cfg(test)]
mod tests;
mod trace;
mod words;

ghost use Rattle.std.specs.Prelude.{◌≡◌, ◌<◌, ℕ, List, map, string_bytes};
ghost use Rattle.g4exact.specs.Commands.{command_of};
ghost use Rattle.g4exact.specs.declared.outcome.Status.TheVariants.{ReadFault};
ghost use Rattle.g4exact.specs.Ends.{IsTold, IsRead, JudgesWords, Blames, HasFailed, RunsTo};

pub use command::{Command, Telling, Verb};
use gx_io::{Sink, Source, StdSink, StdSource};
use gx_steps::Steps;
pub use outcome::{Status, exit_code};
pub use run::run;
use std::alloc::Global;
use std::env;
use std::marker::Brand;
use std::process::ExitCode;
use std::sync::ledger::{Blank, Ledger};
use words::words_from;

fn main(rt: HostRuntime) -> ExitCode {
    let Ok(words) = words_from(rt.alloc(), env::args(&rt)) else {
        return ExitCode::from(exit_code(Status::NoMemory));
    };
    let mut source = StdSource::new(rt.stdin());
    let mut sink = StdSink::new(rt.stdout());
    let status = counted::<_, _, Brand, Brand>(
        rt.alloc(),
        &words,
        &mut source,
        &mut sink,
        Blank::new(1),
        Blank::new(1),
    );
    ExitCode::from(exit_code(status))
}

// Opens the two counters, and runs. What it ensures is what `run` does.
fn counted<S: Source, K: Sink, T: Ledger, Q: Ledger>(
    alloc: Global,
    words: &[String],
    source: &mut S,
    sink: &mut K,
    tests: Blank,
    reads: Blank,
) -> Status
    requires tests { tests.name ≡ T.name }
    requires tests_parts { tests.parts ≡ T.parts }
    requires some_tests { 0 < T.parts }
    requires reads { reads.name ≡ Q.name }
    requires reads_parts { reads.parts ≡ Q.parts }
    requires some_reads { 0 < Q.parts }
    ensures output { (text : List ℕ) × IsTold (S.left source.old) text
        × RunsTo (command_of (map string_bytes words.now)) text (K.written sink.old) (K.written sink.new)
        (HasFailed (S.faults source.old) (S.faults source.new) (K.faults sink.old) (K.faults sink.new)) result }
    ensures read { IsRead (command_of (map string_bytes words.now)) (S.left source.old) (S.left source.new) result }
    ensures words { JudgesWords (command_of (map string_bytes words.now)) result }
    ensures blames { Blames (S.faults source.old) (S.faults source.new) (K.faults sink.old) (K.faults sink.new) result }
    ensures last { result ≡ ReadFault → (before : S) × (S.faults before ≡ S.faults source.old) × S.fails before source.new }
{
    let mut tests: Steps<T> = Steps::new(tests);
    let mut reads: Steps<Q> = Steps::new(reads);
    run(alloc, words, source, sink, &mut tests, &mut reads)
}
