ghost use Rattle.std.specs.Prelude.{◌≡◌, ◌<◌, ◌≤◌, length, slice_get, Some, Ok, All, IfOk, IfErr};
ghost use Rattle.gx_shapes.specs.Accepted.{IsSolid};
ghost use Rattle.gx_tree.specs.Hierarchy.{volume_at, instances as instances_of, IsInstance};
ghost use Rattle.gx_tree.specs.Limits.{IsWithinLimits};
ghost use Rattle.gx_tree.specs.Fault.{hierarchy_of, IsTreeCause, IsTree};

use crate::ends::{count, ends_of, instance_at};
use crate::judge::world_of;
use crate::{Instance, Placement, TreeError, Volume};
use gx_hull::Solid;
use std::alloc::Global;
use std::marker::Model;

/// Volumes placed in volumes, from one world down: none is in itself, no chain from the world has more than 32 placements,
/// and replicas fill their mothers. Contracts see the volumes and the number of the world.
#[derive(Drop)]
pub struct Hierarchy {
    volumes: Vec<Volume>,
    world: u32,
    // For each volume the number of its instances up to each placement and with it.
    ends: Vec<Vec<u32>>,
}

impl Model for Hierarchy {
    ghost use Rattle.std.specs.Prelude.{◌≡◌, map};
    ghost use Rattle.gx_tree.specs.Hierarchy.{Hierarchy};
    ghost use Rattle.gx_tree.specs.Fault.{IsTree};
    ghost use Rattle.gx_tree.specs.Ends.{ends_of};

    ghost Value = { Hierarchy };

    ghost view = { λ h. record { volumes = h.volumes.items; world = h.world } };

    ghost invariant = { λ h. IsTree (record { volumes = h.volumes.items; world = h.world }) × (map (λ e. e.items) h.ends.items ≡ map (λ v. ends_of v.placements) h.volumes.items) };
}

impl Hierarchy {
    /// The hierarchy of these volumes, which stay in their order, or the first fault: of the numbers of volumes, placements
    /// in order. The volumes are dropped where there is none.
    pub fn new(alloc: Global, volumes: Vec<Volume>) -> Result<Hierarchy, TreeError>
        requires { IsWithinLimits volumes.items }
        ensures ok { IfOk result (λ h. hierarchy_of volumes.items ≡ Ok h) }
        ensures err { IfErr result (IsTreeCause (hierarchy_of volumes.items)) }
    {
        let world = world_of(alloc, &volumes)?;
        let ends = ends_of(alloc, &volumes)?;
        Ok(Hierarchy {
            volumes,
            world,
            ends,
        })
    }

    /// The number of the world.
    pub fn world(&self) -> u32
        ensures value { result ≡ self.now.world }
        ensures tree { IsTree self.now }
    {
        self.world
    }

    /// How many volumes there are.
    pub fn count(&self) -> u32
        ensures value { result ≡ length self.now.volumes }
        ensures tree { IsTree self.now }
    {
        self.volumes.len() as u32
    }

    pub fn name(&self, v: u32) -> &[u8]
        requires { v < length self.now.volumes }
        ensures value { result.now ≡ (volume_at self.now.volumes v).name }
        ensures tree { IsTree self.now }
    {
        self.volumes[v as usize].name()
    }

    pub fn material(&self, v: u32) -> &[u8]
        requires { v < length self.now.volumes }
        ensures value { result.now ≡ (volume_at self.now.volumes v).material }
        ensures tree { IsTree self.now }
    {
        self.volumes[v as usize].material()
    }

    pub fn solid(&self, v: u32) -> &Solid
        requires { v < length self.now.volumes }
        ensures value { result.now ≡ (volume_at self.now.volumes v).solid }
        ensures solid { IsSolid result.now }
        ensures tree { IsTree self.now }
    {
        self.volumes[v as usize].solid()
    }

    /// What is placed in the volume.
    pub fn placements(&self, v: u32) -> &[Placement]
        requires { v < length self.now.volumes }
        ensures value { result.now ≡ (volume_at self.now.volumes v).placements }
        ensures tree { IsTree self.now }
    {
        self.volumes[v as usize].placements()
    }

    /// How many daughters the volume has.
    pub fn instances(&self, v: u32) -> u32
        requires { v < length self.now.volumes }
        ensures value { result ≡ length (instances_of self.now v) }
        ensures few { result ≤ 4096 }
        ensures tree { IsTree self.now }
    {
        count(&self.ends[v as usize])
    }

    /// The daughter with this ordinal, in the order of the placements.
    pub fn instance(&self, v: u32, k: u32) -> Instance
        requires volume { v < length self.now.volumes }
        requires ordinal { k < length (instances_of self.now v) }
        ensures value { slice_get (instances_of self.now v) k ≡ Some result }
        ensures instance { IsInstance self.now result }
        ensures tree { IsTree self.now }
    {
        let v = v as usize;
        instance_at(self.volumes[v].placements(), &self.ends[v], k)
    }

    /// The volumes, in their order.
    pub fn into_volumes(self) -> Vec<Volume>
        ensures { result.items ≡ self.volumes }
    {
        self.volumes
    }
}
