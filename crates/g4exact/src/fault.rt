ghost use Rattle.g4exact.specs.declared.command.Verb.{Verb};
ghost use Rattle.g4exact.specs.Output.{IsFault};
ghost use Rattle.g4exact.specs.Ends.{Answers, HasIoCause};

use crate::outcome::Status;
use gx_gather::TextFault;
use gx_io::{IoError, Sink};
use gx_print::print_fault;

/// Writes the line of a text's fault.
pub fn write_fault<K: Sink>(fault: &TextFault, sink: &mut K) -> Result<Status, IoError>
    ensures output { (verb : Verb) → Answers verb (IsFault fault.now) (K.written sink.old) (K.written sink.new) result }
    ensures cause { HasIoCause (K.faults sink.old) (K.faults sink.new) result }
{
    print_fault(fault, sink)?;
    Ok(Status::TextFault)
}
