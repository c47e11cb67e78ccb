ghost use Rattle.std.specs.Prelude.{◌≡◌, IfOk, IfErr, Ok};
ghost use Rattle.gx_gather.specs.Faults.{IsCause};
ghost use Rattle.gx_link.specs.Links as spec;
ghost use Rattle.gx_link.specs.Links.{no_links, linked_with, linked_from};

use crate::known::Known;
use gx_decl::Form;
use gx_gather::{Item, ReadError};
use gx_hull::Solid;
use gx_rotation::Rotation;
use gx_text::Name;
use gx_tree::Placement;
use std::alloc::Global;
use std::marker::Model;

/// A volume with its line.
#[derive(Drop)]
pub struct LinkedVolume {
    pub line: u32,
    pub name: Name,
    pub solid: Solid,
    pub material: Name,
}

/// A placement with its line and the number of its mother.
#[derive(Clone, Copy)]
pub struct LinkedPlacement {
    pub line: u32,
    pub mother: u32,
    pub placement: Placement,
}

/// The lines of volumes and placements, in order, with their names resolved.
#[derive(Drop)]
pub struct Links {
    pub volumes: Vec<LinkedVolume>,
    pub placements: Vec<LinkedPlacement>,
}

impl Model for Links {
    ghost use Rattle.gx_link.specs.Links.{Links};

    ghost Value = { Links };

    ghost view = { λ l. record { volumes = l.volumes.items; placements = l.placements.items } };
}

impl Links {
    fn new(alloc: Global) -> Links
        ensures { result ≡ no_links }
    {
        Links {
            volumes: Vec::new(alloc),
            placements: Vec::new(alloc),
        }
    }

    // One more line.
    fn add(&mut self, alloc: Global, known: &Known, item: Item) -> Result<(), ReadError>
        ensures ok { IfOk result (λ _. linked_with known.now self.old item ≡ Ok self.new) }
        ensures err { IfErr result (IsCause (linked_with known.now self.old item)) }
    {
        match item {
            Item::Volume {
                line,
                name,
                shape,
                material,
            } => {
                let solid = known.solid(alloc, line, shape)?;
                self.volumes.push(LinkedVolume {
                    line,
                    name,
                    solid,
                    material,
                })?;
            }
            Item::Place {
                line,
                volume,
                mother,
                rotation,
                form,
            } => {
                let volume = known.volume(line, 2, &volume)?;
                let mother = known.volume(line, mother_word(form), &mother)?;
                let rotation = known.rotation(line, turn_word(form), rotation)?;
                self.placements.push(LinkedPlacement {
                    line,
                    mother,
                    placement: placement_of(volume, rotation, form),
                })?;
            }
        }
        Ok(())
    }
}

/// The lines with their names resolved, or the first name that stands for nothing: lines in order, words from the left.
pub fn link(alloc: Global, known: &Known, items: Vec<Item>) -> Result<Links, ReadError>
    ensures ok { IfOk result (λ links. linked_from known.now no_links items.items ≡ Ok links) }
    ensures err { IfErr result (IsCause (linked_from known.now no_links items.items)) }
{
    let mut links = Links::new(alloc);
    for item in items {
        links.add(alloc, known, item)?;
    }
    Ok(links)
}

// The word of the mother's name.
fn mother_word(form: Form) -> u32
    ensures { result ≡ spec.mother_word form }
{
    match form {
        Form::Replica { .. } => 3,
        _ => 4,
    }
}

// The word of the rotation's name.
fn turn_word(form: Form) -> u32
    ensures { result ≡ spec.turn_word form }
{
    match form {
        Form::Single { .. } => 5,
        _ => 6,
    }
}

fn placement_of(volume: u32, rotation: Rotation, form: Form) -> Placement
    ensures { result ≡ spec.placement_of volume rotation form }
{
    match form {
        Form::Single { copy, offset } => Placement::Single {
            volume,
            copy,
            rotation,
            offset,
        },
        Form::Replica { axis, count, width } => Placement::Replica {
            volume,
            axis,
            count,
            width,
        },
        Form::Linear {
            axis,
            count,
            step,
            offset,
        } => Placement::Linear {
            volume,
            axis,
            rotation,
            count,
            step,
            offset,
        },
        Form::Square {
            plane,
            first_count,
            second_count,
            first_step,
            second_step,
            first_offset,
            second_offset,
        } => Placement::Square {
            volume,
            plane,
            rotation,
            first_count,
            second_count,
            first_step,
            second_step,
            first_offset,
            second_offset,
        },
    }
}
