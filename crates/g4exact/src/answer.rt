ghost use Rattle.std.specs.Prelude.{◌≡◌, ℕ, [], Some, OnOk};
ghost use Rattle.gx_fraction.specs.Fraction.{Fraction};
ghost use Rattle.gx_io.specs.Bytes.{with_after};
ghost use Rattle.g4exact.specs.declared.command.Command.TheVariants.{Reading};
ghost use Rattle.g4exact.specs.Output.{IsAnswer};
ghost use Rattle.g4exact.specs.Ends.{Ends, Blames, Answers, HasIoCause};
ghost use Rattle.g4exact.specs.Counters.{AnswersCounted, status_of, counters};

use crate::check::write_check;
use crate::command::Verb;
use crate::fault::write_fault;
use crate::list::write_list;
use crate::outcome::Status;
use crate::trace::write_trace;
use gx_gather::TextFault;
use gx_io::{Buffer, BufferedSink, IoError, Lent, Loan, Sink};
use gx_link::Input;
use gx_steps::Steps;
use std::alloc::Global;
use std::marker::{Brand, PhantomData};
use std::sync::ledger::Ledger;

/// Writes what was read of a text, in large pieces: the line of its fault; or where there is none, what the verb writes.
pub fn answer<K: Sink, T: Ledger, Q: Ledger>(
    alloc: Global,
    verb: Verb,
    read: Result<Input, TextFault>,
    sink: &mut K,
    tests: &mut Steps<T>,
    reads: &mut Steps<Q>,
) -> Status
    ensures output { (grid : Fraction) → Ends (Some (Reading verb grid)) (IsAnswer verb read) (K.written sink.old) (K.written sink.new) result }
    ensures blames { (source : ℕ) → Blames source source (K.faults sink.old) (K.faults sink.new) result }
    ensures counts { AnswersCounted verb read (counters tests.old reads.old) (counters tests.new reads.new) result }
{
    let Ok(buffer) = Buffer::new(alloc) else {
        return Status::NoMemory;
    };
    let (written, _sink) = answer_lent::<K, Brand, T, Q>(
        alloc, verb, read, buffer, sink, tests, reads,
    );
    match written {
        Ok(status) => status,
        Err(IoError::Failed) => Status::WriteFault,
        Err(IoError::NoMemory) => Status::NoMemory,
    }
}

// Writes it through a buffer, and gives the sink back.
fn answer_lent<'a, K: Sink, L: Loan, T: Ledger, Q: Ledger>(
    alloc: Global,
    verb: Verb,
    read: Result<Input, TextFault>,
    buffer: Buffer,
    sink: &'a mut K,
    tests: &mut Steps<T>,
    reads: &mut Steps<Q>,
) -> (Result<Status, IoError>, &'a mut K)
    requires empty { buffer ≡ [] }
    requires same_reference { sink.ghost_name ≡ L.name }
    requires written { K.written sink.old ≡ L.written }
    ensures same_reference { result.1.ghost_name ≡ sink.entry.ghost_name }
    ensures output { Answers verb (IsAnswer verb read) (K.written sink.old) (K.written result.1.now) result.0 }
    ensures cause { HasIoCause (K.faults sink.old) (K.faults result.1.now) result.0 }
    ensures counts { AnswersCounted verb read (counters tests.old reads.old) (counters tests.new reads.new) (status_of result.0) }
{
    let lent: Lent<'a, K, L> = Lent {
        sink,
        loan: PhantomData,
    };
    let mut buffered = BufferedSink::new(buffer, lent);
    let result = answer_and_flush(alloc, verb, read, &mut buffered, tests, reads);
    let Lent { sink, loan: _ } = buffered.into_inner();
    (result, sink)
}

// Writes it, and hands all on.
fn answer_and_flush<K: Sink + Drop, T: Ledger, Q: Ledger>(
    alloc: Global,
    verb: Verb,
    read: Result<Input, TextFault>,
    buffered: &mut BufferedSink<K>,
    tests: &mut Steps<T>,
    reads: &mut Steps<Q>,
) -> Result<Status, IoError>
    requires { buffered.old.buffer ≡ [] }
    ensures output { Answers verb (IsAnswer verb read) (K.written buffered.old.inner) (with_after (K.written buffered.new.inner) buffered.new.buffer) result }
    ensures all { OnOk result (buffered.new.buffer ≡ []) }
    ensures cause { HasIoCause (K.faults buffered.old.inner) (K.faults buffered.new.inner) result }
    ensures counts { AnswersCounted verb read (counters tests.old reads.old) (counters tests.new reads.new) (status_of result) }
{
    let status = write_answer(alloc, verb, read, buffered, tests, reads)?;
    buffered.flush()?;
    Ok(status)
}

fn write_answer<K: Sink, T: Ledger, Q: Ledger>(
    alloc: Global,
    verb: Verb,
    read: Result<Input, TextFault>,
    sink: &mut K,
    tests: &mut Steps<T>,
    reads: &mut Steps<Q>,
) -> Result<Status, IoError>
    ensures output { Answers verb (IsAnswer verb read) (K.written sink.old) (K.written sink.new) result }
    ensures cause { HasIoCause (K.faults sink.old) (K.faults sink.new) result }
    ensures counts { AnswersCounted verb read (counters tests.old reads.old) (counters tests.new reads.new) (status_of result) }
{
    match read {
        Ok(input) => match verb {
            Verb::Trace(telling) => write_trace(alloc, telling, input, sink, tests, reads),
            Verb::Check(selection) => write_check(alloc, selection, &input.tree, sink),
            Verb::List => write_list(&input, sink),
        },
        Err(fault) => write_fault(&fault, sink),
    }
}
