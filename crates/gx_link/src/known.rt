ghost use Rattle.std.specs.Prelude.{◌≡◌, IfOk, IfErr, Ok};
ghost use Rattle.gx_gather.specs.Faults.{IsCause};
ghost use Rattle.gx_link.specs.Links.{figure_of, volume_at_word, matrix_at_word};

use gx_gather::{ReadError, Shape, Table, text_fault};
use gx_hull::Solid;
use gx_names::Names;
use gx_rotation::Rotation;
use gx_table::FaultName;
use gx_text::Name;
use std::alloc::Global;

/// What names stand for, once all lines are read. A volume's number is the place of its name.
#[derive(Drop)]
pub struct Known {
    pub solids: Table<Solid>,
    pub turns: Table<Rotation>,
    pub volumes: Names,
}

impl Known {
    /// A volume's solid. Where it has one by name, a copy; a name that stands for none is at fault at word 3.
    pub fn solid(&self, alloc: Global, line: u32, shape: Shape) -> Result<Solid, ReadError>
        ensures ok { IfOk result (λ solid. figure_of self.now line shape ≡ Ok solid) }
        ensures err { IfErr result (IsCause (figure_of self.now line shape)) }
    {
        match shape {
            Shape::Own(solid) => Ok(solid),
            Shape::Named(name) => match self.solids.get(name.bytes()) {
                Some(solid) => Ok(solid.copy(alloc)?),
                None => Err(text_fault(line, 3, FaultName::NoSolid)),
            },
        }
    }

    /// The number of the volume that is named at a word of a line.
    pub fn volume(&self, line: u32, word: u32, name: &Name) -> Result<u32, ReadError>
        ensures ok { IfOk result (λ number. volume_at_word self.now line word name.now ≡ Ok number) }
        ensures err { IfErr result (IsCause (volume_at_word self.now line word name.now)) }
    {
        match self.volumes.number(name.bytes()) {
            Some(number) => Ok(number),
            None => Err(text_fault(line, word, FaultName::NoVolume)),
        }
    }

    /// The rotation that is named at a word of a line; the identity where none is.
    #[tactic(auto, unfolding(gx_rotation::specs::Rotation::matrix_of))]
    pub fn rotation(&self, line: u32, word: u32, name: Option<Name>) -> Result<Rotation, ReadError>
        ensures ok { IfOk result (λ rotation. matrix_at_word self.now line word name ≡ Ok rotation) }
        ensures err { IfErr result (IsCause (matrix_at_word self.now line word name)) }
    {
        match name {
            Some(name) => match self.turns.get(name.bytes()) {
                Some(rotation) => Ok(*rotation),
                None => Err(text_fault(line, word, FaultName::NoRotation)),
            },
            None => Ok(Rotation::new(0)),
        }
    }
}
