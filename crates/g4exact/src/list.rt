ghost use Rattle.g4exact.specs.declared.command.Verb.TheVariants.{List as Listed};
ghost use Rattle.g4exact.specs.Output.{IsList};
ghost use Rattle.g4exact.specs.Ends.{Answers, HasIoCause};

use crate::outcome::Status;
use gx_io::{IoError, Sink};
use gx_link::Input;
use gx_list::print_list;

/// Writes the canonical text of an input's hierarchy and rays.
pub fn write_list<K: Sink>(input: &Input, sink: &mut K) -> Result<Status, IoError>
    ensures output { Answers Listed (IsList input.now) (K.written sink.old) (K.written sink.new) result }
    ensures cause { HasIoCause (K.faults sink.old) (K.faults sink.new) result }
{
    print_list(&input.tree, &input.rays, sink)?;
    Ok(Status::Clean)
}
