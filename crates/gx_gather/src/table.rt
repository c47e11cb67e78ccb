ghost use Rattle.std.specs.Option.{option_map};
ghost use Rattle.std.specs.Prelude.{◌≡◌, ◌<◌, ◌^◌, ◌-◌, ◌≤◌, ℕ, IfErr, OnOk, OnErr, Ok, Err, length};
ghost use Rattle.gx_gather.specs.Faults.{IsCauseAt};
ghost use Rattle.gx_gather.specs.Table.{empty, value_of, name_fault, entered, Defines};

use crate::fault::{too_many, twice};
use gx_form::Refusal;
use gx_names::{NameFault, Names};
use std::alloc::Global;
use std::marker::Model;

/// Names with what they name.
#[derive(Drop)]
pub struct Table<T> {
    names: Names,
    values: Vec<T>,
}

impl<T> Model for Table<T> {
    ghost use Rattle.std.specs.Option.{option_map};
    ghost use Rattle.std.specs.Prelude.{◌≡◌, length};
    ghost use Rattle.gx_gather.specs.Table.{Table as Rows, table_code};

    ghost Value = { Rows T };

    ghost coded = { table_code T.code };

    ghost view = { λ t. record { names = t.names; values = t.values.items } };

    ghost invariant = { λ t. length t.names ≡ length t.values.items };
}

impl<T> Table<T> {
    pub fn new(alloc: Global) -> Table<T>
        ensures { result ≡ empty }
    {
        Table {
            names: Names::new(alloc),
            values: Vec::new(alloc),
        }
    }

    /// What the name stands for.
    pub fn get(&self, name: &[u8]) -> Option<&T>
        ensures { option_map (λ value. value.now) result ≡ value_of self.now name.now }
    {
        self.values.get(self.names.number(name)? as usize)
    }
}

impl<T: Drop> Table<T> {
    /// Gives a new name its value. A name that is there is a fault at word 2 of a line, and one more than the most at
    /// word 1. An error changes nothing.
    pub fn enter(&mut self, most: u32, name: &[u8], value: T) -> Result<(), Refusal>
        requires { most < 2 ^ 32 - 1 }
        ensures ok { OnOk result (entered most self.old name.now value ≡ Ok self.new) }
        ensures err { IfErr result (IsCauseAt (entered most self.old name.now value)) }
        ensures kept { OnErr result (self.new ≡ self.old) }
    {
        self.values.reserve(1)?;
        define(&mut self.names, most, name)?;
        self.values.push(value)?;
        Ok(())
    }
}

/// Gives a new name the next number.
pub(crate) fn define(names: &mut Names, most: u32, name: &[u8]) -> Result<(), Refusal>
    requires { most < 2 ^ 32 - 1 }
    ensures defines { Defines most names.old name.now names.new result }
    ensures room { OnOk result (length names.old < most) }
{
    if names.count() >= most {
        return Err(refusal(names, name));
    }
    match names.define(name) {
        Ok(_) => Ok(()),
        Err(NameFault::Twice) => Err(twice()),
        Err(NameFault::NoMemory) => Err(Refusal::NoMemory),
    }
}

// Where no more names may be defined.
fn refusal(names: &Names, name: &[u8]) -> Refusal
    ensures { (most : ℕ) → most ≤ length names.now → Defines most names.now name.now names.now (Err result) }
{
    match names.number(name) {
        Some(_) => twice(),
        None => too_many(),
    }
}
