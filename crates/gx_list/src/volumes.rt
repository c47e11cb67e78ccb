ghost use Rattle.std.specs.Prelude.{◌<◌, ◌∷◌, length, map};
ghost use Rattle.std.specs.List.{concat};
ghost use Rattle.gx_io.specs.Bytes.{HasCause, Writes};
ghost use Rattle.gx_tree.specs.Hierarchy.{volume_at};
ghost use Rattle.gx_canon.specs.Canonical.{volume_declared};
ghost use Rattle.gx_list.specs.Pieces.{line, line_of, lines_in, volume_words};

use crate::figure::{kind_word, write_figure};
use crate::piece::{Piece, write_last, write_pieces};
use crate::placement::write_placement;
use crate::texts::{Texts, write_texts};
use gx_io::{Failed, Sink, write_all};
use gx_tree::Hierarchy;

/// The lines of volumes.
#[derive(Clone, Copy)]
pub struct Volumes<'a>(pub &'a Hierarchy);

impl Texts for Volumes<'_> {
    ghost texts = { λ v. map (λ volume. line (volume_declared volume)) v.0.now.volumes };

    fn count(&self) -> usize {
        self.0.count() as usize
    }

    fn write<K: Sink>(&self, i: usize, sink: &mut K) -> Result<(), Failed> {
        // What the hierarchy keeps is known from here on.
        let _ = self.0.count();
        write_volume(b":VOLU", self.0, i as u32, sink)
    }
}

#[tactic(auto, using(gx_io::proofs::Joined::joined, crate::proofs::Lines::volume_line))]
fn write_volume<K: Sink>(tag: &[u8], tree: &Hierarchy, v: u32, sink: &mut K) -> Result<(), Failed>
    requires { v < length tree.now.volumes }
    ensures bytes { Writes (K.written sink.old) (K.written sink.new) (line_of (tag.now ∷ volume_words (volume_at tree.now.volumes v))) result }
    ensures cause { HasCause (K.faults sink.old) (K.faults sink.new) result }
{
    let solid = tree.solid(v);
    let name = Piece::Word(tree.name(v));
    write_all(sink, tag)?;
    write_pieces(&[name, Piece::Word(kind_word(solid.kind()))], sink)?;
    write_figure(solid.figure(), sink)?;
    write_last(&[Piece::Word(tree.material(v))], sink)
}

/// The lines of the placements in each mother.
#[derive(Clone, Copy)]
pub struct Mothers<'a>(pub &'a Hierarchy);

impl Texts for Mothers<'_> {
    ghost texts = { λ m. map (λ mother. concat (lines_in m.0.now.volumes mother)) m.0.now.volumes };

    fn count(&self) -> usize {
        self.0.count() as usize
    }

    fn write<K: Sink>(&self, i: usize, sink: &mut K) -> Result<(), Failed> {
        // What the hierarchy keeps is known from here on.
        let _ = self.0.count();
        write_texts(
            &Daughters {
                tree: self.0,
                mother: i as u32,
            },
            sink,
        )
    }
}

// The lines of the placements in a mother.
#[derive(Clone, Copy)]
struct Daughters<'a> {
    tree: &'a Hierarchy,
    mother: u32,
    ghost mother_below: { mother < length tree.now.volumes },
}

impl Texts for Daughters<'_> {
    ghost texts = { λ d. lines_in d.tree.now.volumes (volume_at d.tree.now.volumes d.mother) };

    fn count(&self) -> usize {
        self.tree.placements(self.mother).len()
    }

    fn write<K: Sink>(&self, i: usize, sink: &mut K) -> Result<(), Failed> {
        let placement = &self.tree.placements(self.mother)[i];
        write_placement(self.tree, self.mother, placement, sink)
    }
}
