ghost use Rattle.std.specs.Prelude.{◌≡◌, ◌<◌, ◌++◌, ℕ, List, [], length, IfOk, IfErr, OnOk, OnErr, IsErrOf};
ghost use Rattle.gx_io.specs.Bytes.{next_fault};
ghost use Rattle.gx_reader.specs.Reader.{read_as};
ghost use Rattle.gx_reader.specs.Reading.{reading};
ghost use Rattle.gx_reader.specs.Resumed.{answered};
ghost use Rattle.g4exact.specs.Ends.{IsReadFrom, IsReadWhole};

use gx_expr::Grid;
use gx_gather::{ReadError, TextFault};
use gx_io::{IoError, PIECE, Source};
use gx_link::Input;
use gx_num::NoMemory;
use gx_reader::{MAX_TEXT, Reader};
use std::alloc::Global;

// One byte past the most of a text.
const MOST_READ: usize = MAX_TEXT + 1;

/// Reads a source piece by piece, to its end or to one byte past the most of a text: the input that its text declares, or the
/// first fault of it. No piece is kept.
pub fn read_input<S: Source>(
    alloc: Global,
    grid: &Grid,
    source: &mut S,
) -> Result<Result<Input, TextFault>, IoError>
    ensures ok { IfOk result (λ read. (text : List ℕ) × IsReadWhole (S.left source.old) (S.left source.new) text × (reading grid.now text ≡ read)) }
    ensures err { OnErr result (IsReadFrom (S.left source.old) (S.left source.new)) }

    // Exactly one read has failed at `Failed`, and it is the last; else none has.
    ensures kept { OnOk result (S.faults source.new ≡ S.faults source.old) }
    ensures failed { IsErrOf result IoError.Failed → S.faults source.new ≡ next_fault (S.faults source.old) }
    ensures last { IsErrOf result IoError.Failed → (before : S) × (S.faults before ≡ S.faults source.old) × S.fails before source.new }
    ensures no_memory { IsErrOf result IoError.NoMemory → S.faults source.new ≡ S.faults source.old }
{
    let mut buffer = vec![in alloc; 0u8; PIECE]?;
    let mut reader = Reader::new(alloc, *grid);
    feed(&mut reader, source, buffer.as_mut_slice())?;
    Ok(finish(reader)?)
}

// Feeds a reader what the source has, as much of it at once as the buffer takes.
fn feed<S: Source>(reader: &mut Reader, source: &mut S, buffer: &mut [u8]) -> Result<(), IoError>
    requires { 0 < length buffer.old }
    ensures ok { OnOk result ((text : List ℕ) × IsReadWhole (S.left source.old) (S.left source.new) text
        × ((later : List ℕ) → read_as reader.new later ≡ read_as reader.old (text ++ later))) }
    ensures err { OnErr result (IsReadFrom (S.left source.old) (S.left source.new)) }
    ensures kept { OnOk result (S.faults source.new ≡ S.faults source.old) }
    ensures failed { IsErrOf result IoError.Failed → S.faults source.new ≡ next_fault (S.faults source.old) }
    ensures last { IsErrOf result IoError.Failed → (before : S) × (S.faults before ≡ S.faults source.old) × S.fails before source.new }
    ensures no_memory { IsErrOf result IoError.NoMemory → S.faults source.new ≡ S.faults source.old }
{
    let mut count = 0;
    'reads: while count < MOST_READ {
        let most = (MOST_READ - count).min(buffer.len());
        let n = source.read(&mut buffer[..most])?;
        if n == 0 {
            return Ok(());
        }
        reader.feed(&buffer[..n])?;
        count += n;
    }
    Ok(())
}

/// The same of a text that is at hand.
pub fn read_text(
    alloc: Global,
    grid: &Grid,
    text: &[u8],
) -> Result<Result<Input, TextFault>, NoMemory>
    ensures { IfOk result (λ read. reading grid.now text.now ≡ read) }
{
    let mut reader = Reader::new(alloc, *grid);
    reader.feed(text)?;
    finish(reader)
}

// What a reader makes of no more bytes.
fn finish(reader: Reader) -> Result<Result<Input, TextFault>, NoMemory>
    ensures { IfOk result (λ read. read_as reader [] ≡ answered read) }
{
    match reader.finish() {
        Ok(input) => Ok(Ok(input)),
        Err(ReadError::Text(fault)) => Ok(Err(fault)),
        Err(ReadError::NoMemory) => Err(NoMemory),
    }
}
