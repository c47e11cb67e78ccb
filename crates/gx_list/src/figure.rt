ghost use Rattle.std.specs.Prelude.{◌≡◌, ◌∷◌, ◌++◌, map};
ghost use Rattle.std.specs.Fmt.{decimal};
ghost use Rattle.gx_io.specs.Bytes.{HasCause, Writes};
ghost use Rattle.gx_shapes.specs.declared.figure.Figure.TheVariants.{Extruded, Tessellated};
ghost use Rattle.gx_canon.specs.Words as spec;
ghost use Rattle.gx_list.specs.Pieces.{spaced};

use crate::piece::{Piece, write_pieces};
use crate::texts::{Texts, write_texts};
use gx_io::{Failed, Sink};
use gx_shapes::{Facet, Facets, Figure, Polygon, Section, SolidKind};

/// The name of a kind.
pub fn kind_word(kind: SolidKind) -> &'static [u8]
    ensures { result.now ≡ spec.kind_word kind }
{
    match kind {
        SolidKind::Cuboid => b"BOX",
        SolidKind::Trd => b"TRD",
        SolidKind::Tet => b"TET",
        SolidKind::Extruded => b"EXTRUDED",
        SolidKind::Tessellated => b"TESSELLATED",
    }
}

/// Writes the values of a figure, each after a blank.
pub fn write_figure<K: Sink>(figure: &Figure, sink: &mut K) -> Result<(), Failed>
    ensures bytes { Writes (K.written sink.old) (K.written sink.new) (spaced (spec.value_words figure.now)) result }
    ensures cause { HasCause (K.faults sink.old) (K.faults sink.new) result }
{
    match figure {
        Figure::Cuboid(hx, hy, hz) => write_pieces(
            &[Piece::Length(hx), Piece::Length(hy), Piece::Length(hz)],
            sink,
        ),
        Figure::Trd(dx1, dx2, dy1, dy2, dz) => write_pieces(
            &[
                Piece::Length(dx1),
                Piece::Length(dx2),
                Piece::Length(dy1),
                Piece::Length(dy2),
                Piece::Length(dz),
            ],
            sink,
        ),
        Figure::Tet(a, b, c, d) => write_pieces(
            &[
                Piece::Vector(*a),
                Piece::Vector(*b),
                Piece::Vector(*c),
                Piece::Vector(*d),
            ],
            sink,
        ),
        Figure::Extruded(corners, low, high) => write_extrusion(corners, low, high, sink),
        Figure::Tessellated(facets) => write_tessellation(facets, sink),
    }
}

impl Texts for Polygon {
    ghost texts = { map (λ corner. spaced (spec.corner_words corner)) };

    fn count(&self) -> usize {
        self.as_slice().len()
    }

    fn write<K: Sink>(&self, i: usize, sink: &mut K) -> Result<(), Failed> {
        let corner = &self.as_slice()[i];
        write_pieces(&[Piece::Length(&corner.x), Piece::Length(&corner.y)], sink)
    }
}

impl Texts for Facets {
    ghost texts = { map (λ facet. spaced (spec.facet_words facet)) };

    fn count(&self) -> usize {
        self.as_slice().len()
    }

    fn write<K: Sink>(&self, i: usize, sink: &mut K) -> Result<(), Failed> {
        write_facet(&self.as_slice()[i], sink)
    }
}

fn write_facet<K: Sink>(facet: &Facet, sink: &mut K) -> Result<(), Failed>
    ensures bytes { Writes (K.written sink.old) (K.written sink.new) (spaced (spec.facet_words facet.now)) result }
    ensures cause { HasCause (K.faults sink.old) (K.faults sink.new) result }
{
    let a = Piece::Vector(facet.a);
    let b = Piece::Vector(facet.b);
    let c = Piece::Vector(facet.c);
    match facet.d {
        None => write_pieces(&[Piece::Count(3), a, b, c], sink),
        Some(d) => write_pieces(&[Piece::Count(4), a, b, c, Piece::Vector(d)], sink),
    }
}

#[tactic(auto, using(gx_io::proofs::Joined::joined, crate::proofs::Lines::spaced_parts, crate::proofs::Lines::spaced_each))]
fn write_extrusion<K: Sink>(
    corners: &Polygon,
    low: &Section,
    high: &Section,
    sink: &mut K,
) -> Result<(), Failed>
    ensures bytes { Writes (K.written sink.old) (K.written sink.new) (spaced (spec.value_words (Extruded corners.now low.now high.now))) result }
    ensures cause { HasCause (K.faults sink.old) (K.faults sink.new) result }
{
    write_pieces(&[Piece::Count(corners.as_slice().len())], sink)?;
    write_texts(corners, sink)?;
    write_sections(low, high, sink)
}

fn write_sections<'a, K: Sink>(
    low: &'a Section,
    high: &'a Section,
    sink: &mut K,
) -> Result<(), Failed>
    ensures bytes { Writes (K.written sink.old) (K.written sink.new) (spaced (decimal 2 ∷ spec.section_words low.now ++ spec.section_words high.now)) result }
    ensures cause { HasCause (K.faults sink.old) (K.faults sink.new) result }
{
    write_pieces(
        &[
            Piece::Count(2),
            Piece::Length(&low.z),
            Piece::Length(&low.x),
            Piece::Length(&low.y),
            Piece::Ratio(low.scale),
            Piece::Length(&high.z),
            Piece::Length(&high.x),
            Piece::Length(&high.y),
            Piece::Ratio(high.scale),
        ],
        sink,
    )
}

#[tactic(auto, using(gx_io::proofs::Joined::joined, crate::proofs::Lines::spaced_first, crate::proofs::Lines::spaced_each))]
fn write_tessellation<K: Sink>(facets: &Facets, sink: &mut K) -> Result<(), Failed>
    ensures bytes { Writes (K.written sink.old) (K.written sink.new) (spaced (spec.value_words (Tessellated facets.now))) result }
    ensures cause { HasCause (K.faults sink.old) (K.faults sink.new) result }
{
    write_pieces(&[Piece::Count(facets.as_slice().len())], sink)?;
    write_texts(facets, sink)
}
