ghost use Rattle.std.specs.Prelude.{◌≡◌, ◌<◌, ◌||◌, ℕ, false, slice_index_or};
ghost use Rattle.std.specs.List.{list_any};
ghost use Rattle.gx_io.specs.Bytes.{HasCause, Writes};
ghost use Rattle.gx_rotation.specs.Rotation.{matrix_of, number_of};
ghost use Rattle.gx_decl.specs.declared.declaration.Declaration.TheVariants as declaration;
ghost use Rattle.gx_canon.specs.Canonical.{rotation_name, is_used};
ghost use Rattle.gx_list.specs.Pieces.{line, turn_lines, has_rotation};

use crate::piece::{Piece, write_line};
use crate::texts::Texts;
use gx_io::{Failed, Sink};
use gx_num::V3;
use gx_rotation::Rotation;
use gx_tree::{Hierarchy, Placement};

/// The lines of the rotations that placements have.
#[derive(Clone, Copy)]
pub struct Turns<'a> {
    tree: &'a Hierarchy,
    used: [bool; 24],
    ghost used_by_some: { (k : ℕ) → k < 24 → slice_index_or used k false ≡ is_used tree.now.volumes k },
}

impl<'a> Turns<'a> {
    pub fn of(tree: &'a Hierarchy) -> Turns<'a>
        ensures { result.tree.now ≡ tree.now }
    {
        let mut used = [false; 24];
        for v in 0..tree.count() {
            mark(&mut used, tree.placements(v));
        }
        Turns { tree, used }
    }
}

// Marks the rotations of placements.
fn mark(used: &mut [bool; 24], placements: &[Placement])
    ensures { (k : ℕ) → slice_index_or used.new k false ≡ (slice_index_or used.old k false || list_any (has_rotation k) placements.now) }
{
    for placement in placements {
        mark_rotation(used, placement);
    }
}

fn mark_rotation(used: &mut [bool; 24], placement: &Placement)
    ensures { (k : ℕ) → slice_index_or used.new k false ≡ (slice_index_or used.old k false || has_rotation k placement.now) }
{
    match placement {
        Placement::Replica { .. } => {}
        Placement::Single { rotation, .. }
        | Placement::Linear { rotation, .. }
        | Placement::Square { rotation, .. } => used[number(rotation) as usize] = true,
    }
}

/// The number of a rotation.
#[tactic(auto, using(crate::proofs::Turning::number_is))]
pub fn number(rotation: &Rotation) -> u8
    ensures value { result ≡ number_of rotation.now }
    ensures below { result < 24 }
{
    rotation.index()
}

impl Texts for Turns<'_> {
    ghost texts = { λ turns. turn_lines turns.tree.now.volumes };

    #[tactic(auto, using(crate::proofs::Turning::length_is))]
    fn count(&self) -> usize {
        24
    }

    #[tactic(auto, using(gx_io::proofs::Joined::joined, crate::proofs::Turning::line_at, crate::proofs::Turning::length_is))]
    fn write<K: Sink>(&self, i: usize, sink: &mut K) -> Result<(), Failed> {
        if !self.used[i] {
            return Ok(());
        }
        write_turn(i as u8, sink)
    }
}

#[tactic(auto, using(crate::proofs::Turning::row_x, crate::proofs::Turning::row_y, crate::proofs::Turning::row_z))]
fn write_turn<K: Sink>(k: u8, sink: &mut K) -> Result<(), Failed>
    requires { k < 24 }
    ensures bytes { Writes (K.written sink.old) (K.written sink.new) (line (declaration.Turn (rotation_name k) (matrix_of k))) result }
    ensures cause { HasCause (K.faults sink.old) (K.faults sink.new) result }
{
    let rotation = Rotation::new(k);
    // Its rows are the unit vectors turned back.
    let x = Piece::Vector(rotation.undo(V3 { x: 1, y: 0, z: 0 }));
    let y = Piece::Vector(rotation.undo(V3 { x: 0, y: 1, z: 0 }));
    let z = Piece::Vector(rotation.undo(V3 { x: 0, y: 0, z: 1 }));
    write_line(b":ROTM", &[Piece::Turn(k), x, y, z], sink)
}
