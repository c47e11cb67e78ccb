ghost use Rattle.std.specs.Prelude.{◌≡◌, IfOk};
ghost use Rattle.gx_form.specs.Form.{Reads};
ghost use Rattle.gx_decl.specs.Decl as spec;
ghost use Rattle.gx_decl.specs.Decl.{Answers};
ghost use Rattle.gx_decl.specs.Range.{IsInRange};

use crate::declaration::Declaration;
use crate::param::param;
use crate::placements::{place, place_param, repl};
use crate::ray::ray;
use crate::solids::{solid, volume};
use crate::tag::{Tag, read_tag};
use crate::turns::rotm;
use crate::words::Words;
use gx_expr::{Grid, Params};
use gx_form::Refusal;
use gx_text::Line;
use std::alloc::Global;

/// What a line declares, with these parameters and this grid, or its first fault, at a word from 1: that of the first
/// word that has one, and else that of the line as a whole. What several lines say together isn't judged here: names
/// that are declared twice or not at all, and numbers of lines.
/// Source: the documentation of Geant4's ASCII text geometry format.
pub fn decl(
    alloc: Global,
    line: &Line,
    params: &Params,
    grid: &Grid,
) -> Result<Declaration, Refusal>
    ensures declared { Answers (spec.declared_of params.now grid.now line.now.words) result }
    ensures range { IfOk result IsInRange }
{
    let mut words = Words::new(alloc, params, grid, line);
    declared(&mut words)
}

fn declared(words: &mut Words<'_>) -> Result<Declaration, Refusal>
    ensures reads { Reads (spec.line words.old) result words.new }
    ensures range { IfOk result IsInRange }
{
    let tag = read_tag(words)?;
    after_tag(words, tag)
}

fn after_tag(words: &mut Words<'_>, tag: Tag) -> Result<Declaration, Refusal>
    ensures reads { Reads (spec.after_tag tag words.old) result words.new }
    ensures range { IfOk result IsInRange }
{
    match tag {
        Tag::Param => param(words),
        Tag::Solid => solid(words),
        Tag::Volume => volume(words),
        Tag::Place => place(words),
        Tag::Replica => repl(words),
        Tag::Row => place_param(words),
        Tag::Turn => rotm(words),
        Tag::Ray => ray(words),
        Tag::Passed => Ok(Declaration::Passed),
    }
}
