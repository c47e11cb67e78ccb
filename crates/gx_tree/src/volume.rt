ghost use Rattle.std.specs.Prelude.{◌≡◌};
ghost use Rattle.gx_shapes.specs.Accepted.{IsSolid};

use crate::Placement;
use gx_hull::Solid;
use std::marker::Model;

/// A volume: its name, its solid, its material, and the placements in it.
#[derive(Drop)]
pub struct Volume {
    name: Vec<u8>,
    solid: Solid,
    material: Vec<u8>,
    placements: Vec<Placement>,
}

impl Model for Volume {
    ghost use Rattle.gx_shapes.specs.Accepted.{IsSolid};
    ghost use Rattle.gx_tree.specs.Volume.{Volume};

    ghost Value = { Volume };

    ghost view = { λ v. record { name = v.name.items; solid = v.solid; material = v.material.items; placements = v.placements.items } };

    ghost invariant = { λ v. IsSolid v.solid };
}

impl Volume {
    pub fn new(name: Vec<u8>, solid: Solid, material: Vec<u8>, placements: Vec<Placement>) -> Volume
        ensures { result ≡ record { name = name.items; solid = solid; material = material.items; placements = placements.items } }
    {
        // What each solid keeps is known from here on.
        let _ = solid.hull();
        Volume {
            name,
            solid,
            material,
            placements,
        }
    }

    /// Its name, solid, material and placements.
    pub fn into_parts(self) -> (Vec<u8>, Solid, Vec<u8>, Vec<Placement>)
        ensures name { result.0.items ≡ self.name }
        ensures solid { result.1 ≡ self.solid }
        ensures material { result.2.items ≡ self.material }
        ensures placements { result.3.items ≡ self.placements }
    {
        (self.name, self.solid, self.material, self.placements)
    }

    pub fn name(&self) -> &[u8]
        ensures { result.now ≡ self.now.name }
    {
        &self.name
    }

    pub fn solid(&self) -> &Solid
        ensures value { result.now ≡ self.now.solid }
        ensures solid { IsSolid self.now.solid }
    {
        &self.solid
    }

    pub fn material(&self) -> &[u8]
        ensures { result.now ≡ self.now.material }
    {
        &self.material
    }

    pub fn placements(&self) -> &[Placement]
        ensures { result.now ≡ self.now.placements }
    {
        &self.placements
    }
}
