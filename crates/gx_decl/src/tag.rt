ghost use Rattle.std.specs.Prelude.{◌≡◌};
ghost use Rattle.gx_form.specs.Form.{Exactly};
ghost use Rattle.gx_decl.specs.Decl as spec;

use crate::words::Words;
use gx_form::Fault;
use gx_table::{Entry, FaultName, entry};

/// What a line declares, by its first word.
#[derive(Clone, Copy, Debug, PartialEq, Eq)]
pub enum Tag {
    /// `:P`
    Param,
    /// `:SOLID`
    Solid,
    /// `:VOLU`
    Volume,
    /// `:PLACE`
    Place,
    /// `:REPL`
    Replica,
    /// `:PLACE_PARAM`
    Row,
    /// `:ROTM`
    Turn,
    /// `:RAY`
    Ray,
    /// The line is passed over unread.
    Passed,
}

const TAGS: [Entry; 20] = [
    entry!(b":P", 0),
    entry!(b":SOLID", 1),
    entry!(b":VOLU", 2),
    entry!(b":PLACE", 3),
    entry!(b":REPL", 4),
    entry!(b":PLACE_PARAM", 5),
    entry!(b":ROTM", 6),
    entry!(b":RAY", 7),
    entry!(b":ISOT", 8),
    entry!(b":ELEM", 8),
    entry!(b":ELEM_FROM_ISOT", 8),
    entry!(b":MATE", 8),
    entry!(b":MIXT", 8),
    entry!(b":MIXT_BY_WEIGHT", 8),
    entry!(b":MIXT_BY_NATOMS", 8),
    entry!(b":MIXT_BY_VOLUME", 8),
    entry!(b":VIS", 8),
    entry!(b":COLOUR", 8),
    entry!(b":COLOR", 8),
    entry!(b":CHECK_OVERLAPS", 8),
];

fn tag_of(number: u8) -> Tag
    ensures { result ≡ spec.tag_of number }
{
    match number {
        0 => Tag::Param,
        1 => Tag::Solid,
        2 => Tag::Volume,
        3 => Tag::Place,
        4 => Tag::Replica,
        5 => Tag::Row,
        6 => Tag::Turn,
        7 => Tag::Ray,
        _ => Tag::Passed,
    }
}

/// The tag of a line.
pub fn read_tag(words: &mut Words<'_>) -> Result<Tag, Fault>
    ensures { Exactly (spec.tag words.old) result words.new }
{
    let number = words.row(&TAGS, FaultName::Tag)?;
    Ok(tag_of(number))
}
