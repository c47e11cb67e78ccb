ghost use Rattle.std.specs.Prelude.{◌≡◌, ◌<◌, ◌+◌, ◌^◌, ◌++◌, ℕ, List, [], length, false, IfOk, IfErr, OnOk, Ok, IsTrue};
ghost use Rattle.gx_text.specs.ScannerState.ScannerState.{Scanning};
ghost use Rattle.gx_gather.specs.Declarations.{nothing_declared};
ghost use Rattle.gx_gather.specs.Faults.{IsCause};
ghost use Rattle.gx_reader.specs.Reading.{with_line, text_lines, input_from as input_of_lines};
ghost use Rattle.gx_reader.specs.Resumed.{IsOpen, IsOpenReader, left_by, is_out_of_memory, lines_as, lines_input, answered, Tells};

use gx_expr::Grid;
use gx_gather::{Gathered, ReadError};
use gx_link::{Input, input_from};
use gx_text::{Line, Lines};
use std::alloc::Global;

/// The lines of a text that comes in pieces, or the error that ended reading.
#[derive(Drop)]
pub enum LineReader {
    Reading(Reading),
    Stopped(ReadError),
}

impl LineReader {
    pub fn new(alloc: Global, grid: Grid) -> LineReader
        ensures same { (text : List ℕ) → lines_as result text ≡ answered (text_lines grid text) }
        ensures kept { (more : ℕ) → 1 + more < 2 ^ 32 → IsOpenReader more result }
        ensures memory { is_out_of_memory result ≡ false }
    {
        LineReader::Reading(Reading::new(alloc, grid))
    }

    pub fn is_out_of_memory(&self) -> bool
        ensures { result ≡ is_out_of_memory self.now }
    {
        match self {
            LineReader::Stopped(ReadError::NoMemory) => true,
            _ => false,
        }
    }

    /// Takes the next piece of the text.
    pub fn read(&mut self, piece: &[u8])
        requires { IsOpenReader (length piece.now) self.old }
        ensures same { is_out_of_memory self.new ≡ false → (later : List ℕ) → lines_as self.new later ≡ lines_as self.old (piece.now ++ later) }
        ensures stays { IsTrue (is_out_of_memory self.old) → self.new ≡ self.old }
        ensures kept { (more : ℕ) → IsOpenReader (length piece.now + more) self.old → IsOpenReader more self.new }
    {
        let outcome = match self {
            LineReader::Reading(reading) => reading.read(piece),
            LineReader::Stopped(_) => Ok(()),
        };
        if let Err(error) = outcome {
            *self = LineReader::Stopped(error);
        }
    }

    pub fn finish(self) -> Result<Input, ReadError>
        requires { IsOpenReader 0 self }
        ensures { Tells (lines_input self []) result }
    {
        match self {
            LineReader::Reading(reading) => reading.finish(),
            LineReader::Stopped(error) => Err(error),
        }
    }
}

/// A text that is read line by line.
#[derive(Drop)]
pub struct Reading {
    alloc: Global,
    lines: Lines,
    declared: Gathered,
}

impl Reading {
    fn new(alloc: Global, grid: Grid) -> Reading
        ensures lines { result.lines ≡ Scanning 1 [] }
        ensures grid { result.declared.grid ≡ grid }
        ensures nothing { result.declared.so_far ≡ nothing_declared }
    {
        Reading {
            alloc,
            lines: Lines::new(alloc),
            declared: Gathered::new(alloc, grid),
        }
    }

    fn read(&mut self, piece: &[u8]) -> Result<(), ReadError>
        requires { IsOpen (length piece.now) self.old.lines }
        ensures ok { OnOk result ((later : List ℕ) → left_by self.new later ≡ left_by self.old (piece.now ++ later)) }
        ensures kept { OnOk result ((more : ℕ) → IsOpen (length piece.now + more) self.old.lines → IsOpen more self.new.lines) }
        ensures err { IfErr result (λ error. (later : List ℕ) → IsCause (left_by self.old (piece.now ++ later)) error) }
    {
        let mut rest = piece;
        while !rest.is_empty() {
            rest = self.take(rest)?;
        }
        Ok(())
    }

    // Takes the next line of a text, or the bytes before its end, and gives what is left.
    fn take<'a>(&mut self, text: &'a [u8]) -> Result<&'a [u8], ReadError>
        requires some { 0 < length text.now }
        requires kept { IsOpen (length text.now) self.old.lines }
        ensures ok { IfOk result (λ rest. (later : List ℕ) → left_by self.new (rest.now ++ later) ≡ left_by self.old (text.now ++ later)) }
        ensures kept { IfOk result (λ rest. (more : ℕ) → IsOpen (length text.now + more) self.old.lines → IsOpen (length rest.now + more) self.new.lines) }
        ensures shorter { IfOk result (λ rest. length rest.now < length text.now) }
        ensures err { IfErr result (λ error. (later : List ℕ) → IsCause (left_by self.old (text.now ++ later)) error) }
    {
        let (count, line) = self.lines.take(text)?;
        declare(&mut self.declared, line)?;
        Ok(&text[count..])
    }

    pub fn finish(self) -> Result<Input, ReadError>
        requires { IsOpen 0 self.lines }
        ensures ok { IfOk result (λ input. input_of_lines (left_by self []) ≡ Ok input) }
        ensures err { IfErr result (IsCause (input_of_lines (left_by self []))) }
    {
        let Reading {
            alloc,
            lines,
            mut declared,
        } = self;
        declare(&mut declared, lines.finish()?)?;
        input_from(alloc, declared)
    }
}

fn declare(declared: &mut Gathered, line: Option<Line>) -> Result<(), ReadError>
    ensures grid { declared.new.grid ≡ declared.old.grid }
    ensures ok { OnOk result (with_line declared.old.grid declared.old.so_far (Ok line) ≡ Ok declared.new.so_far) }
    ensures err { IfErr result (IsCause (with_line declared.old.grid declared.old.so_far (Ok line))) }
{
    match line {
        Some(line) => declared.take(&line),
        None => Ok(()),
    }
}
