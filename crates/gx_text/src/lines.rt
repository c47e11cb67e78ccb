ghost use Rattle.std.specs.Prelude.{◌≡◌, ◌≢◌, ◌==◌, false, ◌∷◌, [], ◌++◌, length, None, Some, Err, IfOk, All, position};
ghost use Rattle.std.specs.Io.BufRead.{take_through};
ghost use Rattle.std.specs.Result.{result_map_both};
ghost use Rattle.gx_text.specs.ScannerState.{Answers, AnswersEnd, error_in, after_byte, after_bytes, next_line};
ghost use Rattle.gx_text.specs.ScannerState.ScannerState.{Scanning};

use crate::line::Line;
use crate::partial_line::PartialLine;
use gx_num::NoMemory;
use std::alloc::Global;
use std::marker::Model;

/// The most bytes of a line, its LF not counted.
pub const MAX_LINE: usize = 65536;

/// What a line has wrong: it is too long, or has a byte at this column, from 1, that isn't allowed.
#[derive(Clone, Copy, Debug, PartialEq, Eq)]
pub enum LineFault {
    LongLine { line: u32 },
    NotAscii { line: u32, column: u32 },
}

/// Why a line isn't read.
#[derive(Clone, Copy, Debug, PartialEq, Eq)]
pub enum LineError {
    Fault(LineFault),
    NoMemory,
}

impl From<NoMemory> for LineError {
    ghost use Rattle.std.specs.Prelude.{◌≡◌};
    ghost use Rattle.gx_text.specs.declared.lines.LineError.TheVariants.{NoMemory};

    ghost from_gives = { λ _ error. error ≡ NoMemory };

    fn from(_: NoMemory) -> Self {
        LineError::NoMemory
    }
}

/// Takes a text, byte by byte or slice by slice, and gives each line as its last byte comes, and a line's fault as the
/// byte comes that decides it. Once it has answered an error, it answers that to every call.
#[derive(Drop)]
pub struct Lines {
    alloc: Global,
    number: u32,
    line: PartialLine,
    error: Option<LineError>,
}

impl Model for Lines {
    ghost use Rattle.std.specs.Prelude.{◌≡◌, None};
    ghost use Rattle.gx_text.specs.Lines.{fault_of};
    ghost use Rattle.gx_text.specs.ScannerState.{ScannerState, state_of};

    ghost Value = { ScannerState };

    ghost view = { λ l. state_of l.error l.number l.line };

    ghost invariant = { λ l. l.error ≡ None → fault_of l.number l.line ≡ None };
}

impl Lines {
    pub fn new(alloc: Global) -> Lines
        ensures { result ≡ Scanning 1 [] }
    {
        Lines {
            alloc,
            number: 1,
            line: PartialLine::new(alloc),
            error: None,
        }
    }

    /// Takes the next byte, and gives the line that it ends, if that has a word.
    pub fn push(&mut self, byte: u8) -> Result<Option<Line>, LineError>
        ensures { Answers self.old (after_byte self.old byte) self.new result }
    {
        if let Some(kept) = self.error {
            return Err(kept);
        }
        if byte == b'\n' {
            return self.end();
        }
        match self.line.push(self.number, byte) {
            Ok(()) => Ok(None),
            Err(error) => fail(&mut self.error, error),
        }
    }

    /// Takes the next bytes, up to and with the first LF, or all where there is none. Gives how many it took, and the
    /// line that they end, if one is ended and has a word.
    pub fn take(&mut self, bytes: &[u8]) -> Result<(usize, Option<Line>), LineError>
        ensures count { IfOk result (λ taken. taken.0 ≡ length (take_through 10 bytes.now)) }
        ensures answer { Answers self.old (after_bytes self.old (take_through 10 bytes.now)) self.new (result_map_both (λ taken. taken.1) (λ error. error) result) }
    {
        if let Some(error) = self.error {
            return Err(error);
        }
        match first_lf(bytes) {
            Some(end) => match self.take_line(&bytes[..end]) {
                Ok(line) => Ok((end + 1, line)),
                Err(error) => Err(error),
            },
            None => match self.take_part(bytes) {
                Ok(line) => Ok((bytes.len(), line)),
                Err(error) => Err(error),
            },
        }
    }

    // The rest of a line, and its LF.
    fn take_line(&mut self, rest: &[u8]) -> Result<Option<Line>, LineError>
        requires open { error_in self.old ≡ None }
        requires rest { All (λ b. (b == 10) ≡ false) rest.now }
        ensures { Answers self.old (after_bytes self.old (rest.now ++ 10 ∷ [])) self.new result }
    {
        if !self.line.is_empty() {
            return match self.line.extend(self.number, rest) {
                Ok(()) => self.end(),
                Err(error) => fail(&mut self.error, error),
            };
        }
        match Line::ended(self.alloc, self.number, rest) {
            Ok(line) => {
                self.next_line();
                Ok(line)
            }
            Err(error) => fail(&mut self.error, error),
        }
    }

    // Bytes of a line that don't end it.
    fn take_part(&mut self, part: &[u8]) -> Result<Option<Line>, LineError>
        requires open { error_in self.old ≡ None }
        requires part { All (λ b. (b == 10) ≡ false) part.now }
        ensures { Answers self.old (after_bytes self.old part.now) self.new result }
    {
        match self.line.extend(self.number, part) {
            Ok(()) => Ok(None),
            Err(error) => fail(&mut self.error, error),
        }
    }

    // The line is ended.
    fn end(&mut self) -> Result<Option<Line>, LineError>
        requires { error_in self.old ≡ None }
        ensures { Answers self.old (after_byte self.old 10) self.new result }
    {
        match Line::ended(self.alloc, self.number, self.line.bytes()) {
            Ok(line) => {
                self.next_line();
                Ok(line)
            }
            Err(error) => fail(&mut self.error, error),
        }
    }

    fn next_line(&mut self)
        ensures { self.new ≡ next_line self.old }
    {
        self.number = self.number.saturating_add(1);
        self.line.clear();
    }

    /// The last line, if it has a word and no LF ended it.
    pub fn finish(self) -> Result<Option<Line>, LineError>
        ensures { AnswersEnd self result }
    {
        match self.error {
            Some(error) => Err(error),
            None => Line::ended(self.alloc, self.number, self.line.bytes()),
        }
    }
}

// An error is answered, and kept.
fn fail(kept: &mut Option<LineError>, error: LineError) -> Result<Option<Line>, LineError>
    ensures kept { kept.new ≡ Some error }
    ensures answer { result ≡ Err error }
{
    *kept = Some(error);
    Err(error)
}

fn first_lf(bytes: &[u8]) -> Option<usize>
    ensures { result ≡ position (λ b. b == 10) bytes.now }
{
    bytes.iter().position(|byte| *byte == b'\n')
}
