ghost use Rattle.std.specs.Prelude.{◌≡◌, ◌<◌, length};
ghost use Rattle.gx_io.specs.Bytes.{HasCause, Writes};
ghost use Rattle.gx_tree.specs.Volume.{daughter_of};
ghost use Rattle.gx_tree.specs.Hierarchy.{volume_at};
ghost use Rattle.gx_canon.specs.Words as spec;
ghost use Rattle.gx_canon.specs.Canonical.{placed};
ghost use Rattle.gx_list.specs.Pieces.{line};

use crate::piece::{Piece, write_line};
use crate::turns::number;
use gx_io::{Failed, Sink};
use gx_tree::{Hierarchy, Placement};

/// Writes the line of a placement in a mother.
pub fn write_placement<'a, K: Sink>(
    tree: &'a Hierarchy,
    mother: u32,
    placement: &'a Placement,
    sink: &mut K,
) -> Result<(), Failed>
    requires mother { mother < length tree.now.volumes }
    requires daughter { daughter_of placement.now < length tree.now.volumes }
    ensures bytes { Writes (K.written sink.old) (K.written sink.new) (line (placed tree.now.volumes (volume_at tree.now.volumes mother) placement.now)) result }
    ensures cause { HasCause (K.faults sink.old) (K.faults sink.new) result }
{
    let volume = Piece::Word(tree.name(placement.volume()));
    let mother = Piece::Word(tree.name(mother));
    match placement {
        Placement::Single {
            copy,
            rotation,
            offset,
            ..
        } => write_line(
            b":PLACE",
            &[
                volume,
                Piece::Copy(*copy),
                mother,
                Piece::Turn(number(rotation)),
                Piece::Vector(*offset),
            ],
            sink,
        ),
        Placement::Replica {
            axis,
            count,
            width,
            ..
        } => write_line(
            b":REPL",
            &[
                volume,
                mother,
                Piece::Word(axis_word(*axis)),
                Piece::Count(*count as usize),
                Piece::Length(width),
            ],
            sink,
        ),
        Placement::Linear {
            axis,
            rotation,
            count,
            step,
            offset,
            ..
        } => write_line(
            b":PLACE_PARAM",
            &[
                volume,
                Piece::Count(0),
                mother,
                Piece::Word(linear_word(*axis)),
                Piece::Turn(number(rotation)),
                Piece::Count(*count as usize),
                Piece::Length(step),
                Piece::Length(offset),
            ],
            sink,
        ),
        Placement::Square {
            plane,
            rotation,
            first_count,
            second_count,
            first_step,
            second_step,
            first_offset,
            second_offset,
            ..
        } => write_line(
            b":PLACE_PARAM",
            &[
                volume,
                Piece::Count(0),
                mother,
                Piece::Word(square_word(*plane)),
                Piece::Turn(number(rotation)),
                Piece::Count(*first_count as usize),
                Piece::Count(*second_count as usize),
                Piece::Length(first_step),
                Piece::Length(second_step),
                Piece::Length(first_offset),
                Piece::Length(second_offset),
            ],
            sink,
        ),
    }
}

fn axis_word(axis: u8) -> &'static [u8]
    ensures { result.now ≡ spec.axis_word axis }
{
    match axis {
        0 => b"X",
        1 => b"Y",
        _ => b"Z",
    }
}

fn linear_word(axis: u8) -> &'static [u8]
    ensures { result.now ≡ spec.linear_word axis }
{
    match axis {
        0 => b"LINEAR_X",
        1 => b"LINEAR_Y",
        _ => b"LINEAR_Z",
    }
}

fn square_word(plane: u8) -> &'static [u8]
    ensures { result.now ≡ spec.square_word plane }
{
    match plane {
        0 => b"SQUARE_XY",
        1 => b"SQUARE_XZ",
        _ => b"SQUARE_YZ",
    }
}
