ghost use Rattle.std.specs.Prelude.{◌≡◌, ◌≤◌, length, All, IfErr, OnOk, Ok};
ghost use Rattle.gx_decl.specs.Range.{IsInRange, IsName};
ghost use Rattle.gx_expr.specs.Param.{with_param};
ghost use Rattle.gx_gather.specs.Declarations.{nothing_declared, with_params, with_volume, with_placement, with_ray, with_declaration, declared_by, declare};
ghost use Rattle.gx_gather.specs.Faults.{IsCause, IsCauseAt};
ghost use Rattle.gx_gather.specs.Items.{volume_names, IsItem, IsShape};
ghost use Rattle.gx_gather.specs.Rays.{IsTraceable};

use crate::fault::{ReadError, TextFault, too_many, twice};
use crate::rays::MAX_RAYS;
use crate::table::define;
use crate::{Item, Rays, Shape, Table};
use gx_decl::{Declaration, Form, decl};
use gx_expr::{Grid, ParamFault, Params, Value};
use gx_form::{Fault, Refusal};
use gx_hull::Solid;
use gx_names::Names;
use gx_num::Ray;
use gx_rotation::Rotation;
use gx_table::FaultName;
use gx_text::{Line, Name};
use std::alloc::Global;
use std::marker::Model;

/// The most lines of parameters.
pub const MAX_PARAMS: u32 = 65536;

/// The most lines of solids.
pub const MAX_SOLIDS: u32 = 65536;

/// The most lines of rotations.
pub const MAX_TURNS: u32 = 65536;

/// The most volumes.
pub const MAX_VOLUMES: u32 = 4096;

/// The most lines of placements.
pub const MAX_PLACEMENTS: u32 = 65536;

/// What the lines so far declare, in steps of a grid.
#[derive(Drop)]
pub struct Gathered {
    alloc: Global,
    grid: Grid,
    params: Params,
    param_lines: u32,
    solids: Table<Solid>,
    turns: Table<Rotation>,
    volumes: Names,
    items: Vec<Item>,
    placements: u32,
    rays: Rays,
}

impl Model for Gathered {
    ghost use Rattle.std.specs.Prelude.{◌≡◌, ◌≤◌};
    ghost use Rattle.gx_gather.specs.Gathering.{Gathering, IsGathered};

    ghost Value = { Gathering };

    ghost view = { λ g. record { grid = g.grid; so_far = record { params = g.params; param_lines = g.param_lines; solids = g.solids; turns = g.turns; items = g.items.items; rays = g.rays } } };

    ghost invariant = { λ g. IsGathered g.param_lines g.volumes g.placements g.items.items };
}

/// What all lines declare: solids and rotations by name, the volumes' names, the lines of volumes and placements, and the
/// rays.
#[derive(Drop)]
pub struct Parts {
    pub solids: Table<Solid>,
    pub turns: Table<Rotation>,
    pub volumes: Names,
    pub items: Vec<Item>,
    pub rays: Rays,
}

impl Gathered {
    /// Nothing is declared yet.
    pub fn new(alloc: Global, grid: Grid) -> Gathered
        ensures grid { result.grid ≡ grid }
        ensures nothing { result.so_far ≡ nothing_declared }
    {
        Gathered {
            alloc,
            grid,
            params: Params::new(alloc),
            param_lines: 0,
            solids: Table::new(alloc),
            turns: Table::new(alloc),
            volumes: Names::new(alloc),
            items: Vec::new(alloc),
            placements: 0,
            rays: Rays::new(alloc),
        }
    }

    /// Takes the next line that has a word.
    pub fn take(&mut self, line: &Line) -> Result<(), ReadError>
        ensures grid { self.new.grid ≡ self.old.grid }
        ensures ok { OnOk result (declare self.old.grid self.old.so_far line.now ≡ Ok self.new.so_far) }
        ensures err { IfErr result (IsCause (declare self.old.grid self.old.so_far line.now)) }
    {
        match self.declare(line) {
            Ok(()) => Ok(()),
            Err(Refusal::At(fault)) => Err(ReadError::Text(TextFault {
                line: line.number(),
                word: fault.place,
                name: fault.name,
            })),
            Err(Refusal::NoMemory) => Err(ReadError::NoMemory),
        }
    }

    fn declare(&mut self, line: &Line) -> Result<(), Refusal>
        ensures grid { self.new.grid ≡ self.old.grid }
        ensures ok { OnOk result (declared_by self.old.grid self.old.so_far line.now ≡ Ok self.new.so_far) }
        ensures err { IfErr result (IsCauseAt (declared_by self.old.grid self.old.so_far line.now)) }
    {
        let declaration = decl(self.alloc, line, &self.params, &self.grid)?;
        self.add(line.number(), declaration)
    }

    fn add(&mut self, line: u32, declaration: Declaration) -> Result<(), Refusal>
        requires { IsInRange declaration }
        ensures grid { self.new.grid ≡ self.old.grid }
        ensures ok { OnOk result (with_declaration self.old.so_far line declaration ≡ Ok self.new.so_far) }
        ensures err { IfErr result (IsCauseAt (with_declaration self.old.so_far line declaration)) }
    {
        match declaration {
            Declaration::Param { name, value } => self.add_param(name.bytes(), value),
            Declaration::Solid { name, solid } => {
                self.solids.enter(MAX_SOLIDS, name.bytes(), solid)
            }
            Declaration::Volume {
                name,
                solid,
                material,
            } => self.add_volume(line, name, Shape::Own(solid), material),
            Declaration::Named {
                name,
                solid,
                material,
            } => self.add_volume(line, name, Shape::Named(solid), material),
            Declaration::Place {
                volume,
                mother,
                rotation,
                form,
            } => self.add_placement(line, volume, mother, rotation, form),
            Declaration::Turn { name, rotation } => {
                self.turns.enter(MAX_TURNS, name.bytes(), rotation)
            }
            Declaration::Trace { ray } => self.add_ray(ray),
            Declaration::Passed => Ok(()),
        }
    }

    fn add_param(&mut self, name: &[u8], value: Value) -> Result<(), Refusal>
        ensures grid { self.new.grid ≡ self.old.grid }
        ensures ok { OnOk result (with_params self.old.so_far (with_param self.old.so_far.params name.now value) ≡ Ok self.new.so_far) }
        ensures err { IfErr result (IsCauseAt (with_params self.old.so_far (with_param self.old.so_far.params name.now value))) }
    {
        match self.params.define(name, value) {
            Ok(()) => {}
            Err(ParamFault::Twice) => return Err(twice()),
            Err(ParamFault::NoMemory) => return Err(Refusal::NoMemory),
        }
        if self.param_lines >= MAX_PARAMS {
            return Err(too_many());
        }
        self.param_lines += 1;
        Ok(())
    }

    fn add_volume(
        &mut self,
        line: u32,
        name: Name,
        shape: Shape,
        material: Name,
    ) -> Result<(), Refusal>
        requires { IsItem (Item.Volume line name shape material) }
        ensures grid { self.new.grid ≡ self.old.grid }
        ensures ok { OnOk result (with_volume self.old.so_far line name shape material ≡ Ok self.new.so_far) }
        ensures err { IfErr result (IsCauseAt (with_volume self.old.so_far line name shape material)) }
    {
        self.items.reserve(1)?;
        define(&mut self.volumes, MAX_VOLUMES, name.bytes())?;
        self.items.push(Item::Volume {
            line,
            name,
            shape,
            material,
        })?;
        Ok(())
    }

    fn add_placement(
        &mut self,
        line: u32,
        volume: Name,
        mother: Name,
        rotation: Option<Name>,
        form: Form,
    ) -> Result<(), Refusal>
        requires { IsItem (Item.Place line volume mother rotation form) }
        ensures grid { self.new.grid ≡ self.old.grid }
        ensures ok { OnOk result (with_placement self.old.so_far (Item.Place line volume mother rotation form) ≡ Ok self.new.so_far) }
        ensures err { IfErr result (IsCauseAt (with_placement self.old.so_far (Item.Place line volume mother rotation form))) }
    {
        if self.placements >= MAX_PLACEMENTS {
            return Err(too_many());
        }
        self.items.push(Item::Place {
            line,
            volume,
            mother,
            rotation,
            form,
        })?;
        self.placements += 1;
        Ok(())
    }

    fn add_ray(&mut self, ray: Ray) -> Result<(), Refusal>
        requires { IsInRange (Declaration.Trace ray) }
        ensures grid { self.new.grid ≡ self.old.grid }
        ensures ok { OnOk result (with_ray self.old.so_far ray ≡ Ok self.new.so_far) }
        ensures err { IfErr result (IsCauseAt (with_ray self.old.so_far ray)) }
    {
        if self.rays.count() as usize >= MAX_RAYS {
            return Err(Refusal::At(Fault {
                place: 1,
                name: FaultName::TooManyRays,
            }));
        }
        self.rays.push(ray)?;
        Ok(())
    }

    /// What all lines declare.
    pub fn into_parts(self) -> Parts
        ensures solids { result.solids ≡ self.so_far.solids }
        ensures turns { result.turns ≡ self.so_far.turns }
        ensures volumes { result.volumes ≡ volume_names self.so_far.items }
        ensures few { length result.volumes ≤ MAX_VOLUMES }
        ensures items { result.items.items ≡ self.so_far.items }
        ensures kept { All IsItem result.items.items }
        ensures rays { result.rays ≡ self.so_far.rays }
    {
        Parts {
            solids: self.solids,
            turns: self.turns,
            volumes: self.volumes,
            items: self.items,
            rays: self.rays,
        }
    }
}
