ghost use Rattle.std.specs.Prelude.{◌≡◌, []};
ghost use Rattle.gx_expr.specs.Quantity.{is_same_quantity};

use crate::{ParamFault, Value};
use gx_names::NameList;
use std::alloc::Global;
use std::marker::Model;

/// The parameters that are defined. Contracts see their names and values in the order of definition.
#[derive(Drop)]
pub struct Params {
    names: NameList,
    values: Vec<Value>,
}

impl Model for Params {
    ghost use Rattle.std.specs.Prelude.{◌≡◌, List, length};
    ghost use Rattle.gx_expr.specs.Param.{Param, params_of};

    ghost Value = { List Param };

    ghost view = { λ p. params_of p.names p.values.items };

    ghost invariant = { λ p. length p.names ≡ length p.values.items };
}

impl Params {
    ghost use Rattle.gx_expr.specs.Param.{value_of_name, Defines};

    /// No parameters. Takes no memory.
    pub fn new(alloc: Global) -> Params
        ensures { result ≡ [] }
    {
        Params {
            names: NameList::new(alloc),
            values: Vec::new(alloc),
        }
    }

    /// Gives the name a value; the value that it has may be given again. `Twice` where it has another one. An error
    /// changes nothing.
    pub fn define(&mut self, name: &[u8], value: Value) -> Result<(), ParamFault>
        ensures { Defines self.old name.now value self.new result }
    {
        if let Some(before) = self.get(name) {
            if !same(&before, &value) {
                return Err(ParamFault::Twice);
            }
            return Ok(());
        }
        self.values.reserve(1)?;
        self.names.add(name)?;
        self.values.push(value)?;
        Ok(())
    }

    /// The value of a name: None where it was given none.
    pub fn get(&self, name: &[u8]) -> Option<Value>
        ensures { result ≡ value_of_name self.now name.now }
    {
        self.values.get(self.names.place(name)?).copied()
    }
}

fn same(a: &Value, b: &Value) -> bool
    ensures { result ≡ is_same_quantity a.now b.now }
{
    a == b
}
