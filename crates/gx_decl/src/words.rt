ghost use Rattle.std.specs.Prelude.{◌≡◌, ◌≤◌, ◌+◌, unsigned_abs, ◌≤ℤ◌, IfOk, IfErr, IsTrue, length, drop};
ghost use Rattle.gx_num.specs.declared.vector.TheConstants.{M};
ghost use Rattle.gx_expr.specs.Convert.{count};
ghost use Rattle.gx_form.specs.Form.{Exactly, Reads};
ghost use Rattle.gx_form.specs.declared.refusal.Refusal.TheVariants.{NoMemory};
ghost use Rattle.gx_decl.specs.Words as spec;
ghost use Rattle.gx_decl.specs.Range.{IsName, IsNear};

use crate::fault::{expr_name, step_name};
use gx_expr::{Grid, Params, Value, WholeFault, eval, to_quarters, to_steps, to_whole};
use gx_form::{Fault, Refusal};
use gx_table::{Entry, FaultName, find};
use gx_text::{Line, Name, is_name};
use std::alloc::Global;
use std::marker::Model;

/// The words of a line, read from the left, with the parameters and the grid that they are read by.
#[derive(Drop)]
pub struct Words<'a> {
    alloc: Global,
    params: &'a Params,
    grid: &'a Grid,
    line: &'a Line,
    count: u32,
}

impl<'a> Model for Words<'a> {
    ghost use Rattle.std.specs.Prelude.{◌≤◌, length, drop};
    ghost use Rattle.gx_decl.specs.Words as spec;

    ghost Value = { spec.Words };

    ghost view = { λ w. record { params = w.params.now; grid = w.grid.now; count = w.count; rest = drop w.count w.line.now.words } };

    ghost invariant = { λ w. (w.count ≤ length w.line.now.words) × (w.count ≤ 65536) };
}

impl<'a> Words<'a> {
    /// The words of a line before any is read.
    pub fn new(alloc: Global, params: &'a Params, grid: &'a Grid, line: &'a Line) -> Words<'a>
        ensures { result ≡ record { params = params.now; grid = grid.now; count = 0; rest = line.now.words } }
    {
        Words {
            alloc,
            params,
            grid,
            line,
            count: 0,
        }
    }

    pub fn alloc(&self) -> Global {
        self.alloc
    }

    /// The next word.
    pub fn word(&mut self) -> Result<&'a [u8], Fault>
        ensures { Exactly (spec.word self.old) (spec.copied result) self.new }
    {
        if self.count == self.line.count() {
            return Err(self.next_fault());
        }
        self.count += 1;
        Ok(self.line.word(self.count))
    }

    /// How many words are left.
    pub fn left(&self) -> u32
        ensures { result ≡ length self.now.rest }
    {
        self.line.count() - self.count
    }

    /// No word is left.
    pub fn end(&mut self) -> Result<(), Fault>
        ensures { Exactly (spec.end self.old) result self.new }
    {
        if self.left() != 0 {
            return Err(self.next_fault());
        }
        Ok(())
    }

    /// A fault of the word that was read last.
    pub fn last_fault(&self, name: FaultName) -> Fault
        ensures { result ≡ record { place = self.now.count; name = name } }
    {
        Fault {
            place: self.count,
            name,
        }
    }

    // The next word is missing, or one too many.
    fn next_fault(&self) -> Fault
        ensures { result ≡ record { place = self.now.count + 1; name = FaultName.Words } }
    {
        Fault {
            place: self.count + 1,
            name: FaultName::Words,
        }
    }

    /// A name.
    pub fn name(&mut self) -> Result<Name, Refusal>
        ensures reads { Reads (spec.name self.old) result self.new }
        ensures name { IfOk result IsName }
    {
        let word = self.word()?;
        if !is_name(word) {
            return Err(self.last_fault(FaultName::Name).into());
        }
        self.kept(word)
    }

    /// These bytes, as a name of their own.
    pub fn kept(&self, bytes: &[u8]) -> Result<Name, Refusal>
        ensures ok { IfOk result (λ name. name ≡ bytes.now) }
        ensures err { IfErr result (λ e. e ≡ NoMemory) }
    {
        Ok(Name::new(self.alloc, bytes)?)
    }

    /// An expression.
    pub fn expression(&mut self) -> Result<Value, Fault>
        ensures { Exactly (spec.expression self.old) result self.new }
    {
        let word = self.word()?;
        match eval(self.params, word) {
            Ok(value) => Ok(value),
            Err(fault) => Err(self.last_fault(expr_name(fault))),
        }
    }

    /// A length, in steps of the grid.
    pub fn steps(&mut self) -> Result<i64, Fault>
        ensures reads { Exactly (spec.steps self.old) result self.new }
        ensures within { IfOk result IsNear }
    {
        let value = self.expression()?;
        match to_steps(&value, self.grid) {
            Ok(steps) => Ok(steps),
            Err(fault) => Err(self.last_fault(step_name(fault))),
        }
    }

    /// A whole number from `low` to `high`; `range` is the fault of another number.
    pub fn number(&mut self, low: i64, high: i64, range: FaultName) -> Result<i64, Fault>
        ensures reads { Exactly (spec.whole low high range self.old) result self.new }
        ensures within { IfOk result (λ n. (low ≤ℤ n) × (n ≤ℤ high)) }
    {
        let value = self.expression()?;
        match whole(&value, low, high) {
            Ok(number) => Ok(number),
            Err(WholeFault::UnitKind) => Err(self.last_fault(FaultName::UnitKind)),
            Err(WholeFault::Range) => Err(self.last_fault(range)),
        }
    }

    /// An angle, in quarter turns where it is some.
    pub fn quarters(&mut self) -> Result<Option<u8>, Fault>
        ensures { Exactly (spec.quarters self.old) result self.new }
    {
        let value = self.expression()?;
        match to_quarters(&value) {
            Ok(turns) => Ok(turns),
            Err(_) => Err(self.last_fault(FaultName::UnitKind)),
        }
    }

    /// The number of a word in a table.
    pub fn row<const N: usize>(
        &mut self,
        table: &[Entry; N],
        unknown: FaultName,
    ) -> Result<u8, Fault>
        ensures { Exactly (spec.row_of table.now unknown self.old) result self.new }
    {
        let word = self.word()?;
        match find(table, word) {
            Some(number) => Ok(number),
            None => Err(self.last_fault(unknown)),
        }
    }
}

/// The whole number from `low` to `high` that a value is.
pub fn whole(value: &Value, low: i64, high: i64) -> Result<i64, WholeFault>
    ensures value { result ≡ count value.now low high }
    ensures within { IfOk result (λ n. (low ≤ℤ n) × (n ≤ℤ high)) }
{
    to_whole(value, low, high)
}
