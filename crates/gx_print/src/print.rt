ghost use Rattle.std.specs.Prelude.{◌++◌, codes, decimal};
ghost use Rattle.gx_io.specs.Bytes.{HasCause, Writes};
ghost use Rattle.gx_table.specs.Faults.{text_of};
ghost use Rattle.gx_print.specs.Texts.{usage_line, ray_head, fault_line};

use crate::number::write_number;
use gx_gather::TextFault;
use gx_io::{Failed, Sink, write_all};
use gx_table::fault_text;

/// Writes the usage line.
pub fn print_usage<K: Sink>(sink: &mut K) -> Result<(), Failed>
    ensures bytes { Writes (K.written sink.old) (K.written sink.new) usage_line result }
    ensures cause { HasCause (K.faults sink.old) (K.faults sink.new) result }
{
    write_all(
        sink,
        b"usage: g4exact (trace | check [--brief] | list) [--grid=EXPR] | sample N\n",
    )
}

/// Writes the head of the n-th ray, from 1.
pub fn print_ray<K: Sink>(number: u32, sink: &mut K) -> Result<(), Failed>
    ensures bytes { Writes (K.written sink.old) (K.written sink.new) (ray_head number) result }
    ensures cause { HasCause (K.faults sink.old) (K.faults sink.new) result }
{
    write_numbered(sink, b"ray ", number)
}

/// Writes the line of a fault of the text.
pub fn print_fault<K: Sink>(fault: &TextFault, sink: &mut K) -> Result<(), Failed>
    ensures bytes { Writes (K.written sink.old) (K.written sink.new) (fault_line fault.now) result }
    ensures cause { HasCause (K.faults sink.old) (K.faults sink.new) result }
{
    write_fault(sink, b"fault ", fault)
}

// The words that lines begin with are parameters, so that proofs join a line from its parts, and not from bytes.

#[tactic(auto, using(gx_io::proofs::Joined::joined))]
fn write_numbered<K: Sink>(sink: &mut K, head: &[u8], number: u32) -> Result<(), Failed>
    ensures bytes { Writes (K.written sink.old) (K.written sink.new) (head.now ++ decimal number ++ codes "\n") result }
    ensures cause { HasCause (K.faults sink.old) (K.faults sink.new) result }
{
    write_all(sink, head)?;
    write_number(sink, number)?;
    write_all(sink, b"\n")
}

#[tactic(auto, using(gx_io::proofs::Joined::joined))]
fn write_fault<K: Sink>(sink: &mut K, head: &[u8], fault: &TextFault) -> Result<(), Failed>
    ensures bytes { Writes (K.written sink.old) (K.written sink.new)
        (head.now ++ decimal fault.now.line ++ codes " " ++ decimal fault.now.word ++ codes " " ++ text_of fault.now.name ++ codes "\n") result }
    ensures cause { HasCause (K.faults sink.old) (K.faults sink.new) result }
{
    write_place(sink, head, fault.line, fault.word)?;
    write_all(sink, b" ")?;
    write_all(sink, fault_text(fault.name).as_bytes())?;
    write_all(sink, b"\n")
}

#[tactic(auto, using(gx_io::proofs::Joined::joined))]
fn write_place<K: Sink>(sink: &mut K, head: &[u8], line: u32, word: u32) -> Result<(), Failed>
    ensures bytes { Writes (K.written sink.old) (K.written sink.new) (head.now ++ decimal line ++ codes " " ++ decimal word) result }
    ensures cause { HasCause (K.faults sink.old) (K.faults sink.new) result }
{
    write_all(sink, head)?;
    write_number(sink, line)?;
    write_all(sink, b" ")?;
    write_number(sink, word)
}
