ghost use Rattle.std.specs.Prelude.{◌≡◌, ◌<◌, ◌≤◌};
ghost use Rattle.gx_tree.specs.Volume.{daughter_of, copies_of, rotation_of, number_of, offset_of, instance_of};
ghost use Rattle.gx_tree.specs.Hierarchy.{IsRotation};
ghost use Rattle.gx_tree.specs.Limits.{IsInRange};
ghost use Rattle.gx_tree.specs.Ends.{IsEven};

use crate::Instance;
use gx_num::V3;
use gx_param::{linear_at, square_at};
use gx_replica::replica_at;
use gx_rotation::Rotation;

/// Volumes placed in a mother, by the number of the volume (the geometry section of the Geant4 Book for Application
/// Developers). Axes are 0 to 2, x to z, and planes 0 to 2, xy, xz and yz; lengths are in steps.
#[derive(Clone, Copy, Debug, PartialEq, Eq)]
pub enum Placement {
    /// One daughter.
    Single {
        volume: u32,
        copy: i32,
        rotation: Rotation,
        offset: V3,
    },
    /// Cells side by side, which fill the mother.
    Replica {
        volume: u32,
        axis: u8,
        count: u32,
        width: i64,
    },
    /// Copies in a row; copy i is at offset + i * step on the axis.
    Linear {
        volume: u32,
        axis: u8,
        rotation: Rotation,
        count: u32,
        step: i64,
        offset: i64,
    },
    /// Copies in rows of a plane; copy i is number i mod `first_count` of row i div `first_count`.
    Square {
        volume: u32,
        plane: u8,
        rotation: Rotation,
        first_count: u32,
        second_count: u32,
        first_step: i64,
        second_step: i64,
        first_offset: i64,
        second_offset: i64,
    },
}

impl Placement {
    /// The number of the volume that is placed.
    pub fn volume(&self) -> u32
        ensures { result ≡ daughter_of self.now }
    {
        match self {
            Placement::Single { volume, .. }
            | Placement::Replica { volume, .. }
            | Placement::Linear { volume, .. }
            | Placement::Square { volume, .. } => *volume,
        }
    }

    /// The rotation of each instance.
    #[tactic(auto, unfolding(gx_rotation::specs::Rotation::matrix_of))]
    pub fn rotation(&self) -> Rotation
        ensures value { result ≡ rotation_of self.now }
        ensures rotation { IsRotation result }
    {
        match *self {
            Placement::Replica { .. } => known(Rotation::new(0)),
            Placement::Single { rotation, .. }
            | Placement::Linear { rotation, .. }
            | Placement::Square { rotation, .. } => known(rotation),
        }
    }

    /// How many instances it stands for.
    pub fn count(&self) -> u32
        requires { IsInRange self.now }
        ensures { result ≡ copies_of self.now }
    {
        match self {
            Placement::Single { .. } => 1,
            Placement::Replica { count, .. } | Placement::Linear { count, .. } => *count,
            Placement::Square {
                first_count,
                second_count,
                ..
            } => *first_count * *second_count,
        }
    }

    // The i-th of them.
    pub(crate) fn instance(&self, i: u32) -> Instance
        requires copy { i < copies_of self.now }
        requires few { copies_of self.now ≤ 4096 }
        requires range { IsInRange self.now }
        requires even { IsEven self.now }
        ensures { result ≡ instance_of self.now i }
    {
        Instance {
            volume: self.volume(),
            copy: self.number(i),
            rotation: self.rotation(),
            offset: self.offset(i),
        }
    }

    fn number(&self, i: u32) -> i32
        requires { i < 4096 }
        ensures { result ≡ number_of self.now i }
    {
        match self {
            Placement::Single { copy, .. } => *copy,
            _ => i as i32,
        }
    }

    fn offset(&self, i: u32) -> V3
        requires copy { i < copies_of self.now }
        requires few { copies_of self.now ≤ 4096 }
        requires range { IsInRange self.now }
        requires even { IsEven self.now }
        ensures { result ≡ offset_of self.now i }
    {
        match *self {
            Placement::Single { offset, .. } => offset,
            Placement::Replica {
                axis,
                count,
                width,
                ..
            } => replica_at(axis, count, width, i),
            Placement::Linear {
                axis,
                step,
                offset,
                ..
            } => linear_at(axis, step, offset, i),
            Placement::Square {
                plane,
                first_count,
                first_step,
                second_step,
                first_offset,
                second_offset,
                ..
            } => square_at(
                plane,
                first_count,
                first_step,
                second_step,
                first_offset,
                second_offset,
                i,
            ),
        }
    }
}

// The same, of which it is known that it is one of the 24.
fn known(rotation: Rotation) -> Rotation
    ensures value { result ≡ rotation }
    ensures rotation { IsRotation result }
{
    let _ = rotation.index();
    rotation
}
