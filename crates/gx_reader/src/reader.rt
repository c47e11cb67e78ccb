ghost use Rattle.gx_reader.specs.Reader.{Begins, Feeds, Finishes};

use crate::line_reader::LineReader;
use gx_expr::Grid;
use gx_gather::{ReadError, text_fault};
use gx_link::Input;
use gx_num::NoMemory;
use gx_table::FaultName;
use std::alloc::Global;
use std::marker::Model;

/// The most bytes of a text.
pub const MAX_TEXT: usize = 67108864;

/// Reads a text that comes in pieces, with lengths in steps of a grid. It keeps what the lines so far declare, or the first
/// fault, and the bytes of the line that isn't ended.
#[derive(Drop)]
pub struct Reader {
    count: usize,
    lines: LineReader,
}

impl Model for Reader {
    ghost use Rattle.std.specs.Prelude.{◌≤◌, ◌-◌};
    ghost use Rattle.gx_reader.specs.Reader.{ReaderState};
    ghost use Rattle.gx_reader.specs.Resumed.{IsOpenReader};
    ghost use Rattle.gx_reader.specs.declared.reader.TheConstants.{MAX_TEXT};

    ghost Value = { ReaderState };

    ghost view = { λ r. record { count = r.count; lines = r.lines } };

    ghost invariant = { λ r. r.count ≤ MAX_TEXT → IsOpenReader (MAX_TEXT - r.count) r.lines };
}

impl Reader {
    pub fn new(alloc: Global, grid: Grid) -> Reader
        ensures { Begins grid result }
    {
        Reader {
            count: 0,
            lines: LineReader::new(alloc, grid),
        }
    }

    /// Takes the next piece of the text. A fault is kept, and told at the end.
    pub fn feed(&mut self, piece: &[u8]) -> Result<(), NoMemory>
        ensures { Feeds self.old piece.now self.new result }
    {
        self.count = self.count.saturating_add(piece.len());
        if self.count <= MAX_TEXT {
            self.lines.read(piece);
        }
        if self.lines.is_out_of_memory() {
            return Err(NoMemory);
        }
        Ok(())
    }

    /// The input that the pieces declare together, or their first fault.
    pub fn finish(self) -> Result<Input, ReadError>
        ensures { Finishes self result }
    {
        let Reader { count, lines } = self;
        if count > MAX_TEXT && !lines.is_out_of_memory() {
            return Err(text_fault(0, 0, FaultName::LongText));
        }
        lines.finish()
    }
}
