ghost use Rattle.gx_io.specs.Bytes.{HasCause, Writes};
ghost use Rattle.gx_canon.specs.Canonical.{canonical};

use crate::piece::{Piece, write_line};
use crate::texts::{Texts, write_texts};
use crate::turns::Turns;
use crate::volumes::{Mothers, Volumes};
use gx_gather::Rays;
use gx_io::{Failed, Sink};
use gx_tree::Hierarchy;

/// Writes the canonical text of a hierarchy and its rays, from which both are read back.
#[tactic(auto, using(gx_io::proofs::Joined::joined, crate::proofs::Whole::canonical_is))]
pub fn print_list<K: Sink>(tree: &Hierarchy, rays: &Rays, sink: &mut K) -> Result<(), Failed>
    ensures bytes { Writes (K.written sink.old) (K.written sink.new) (canonical tree.now rays.now) result }
    ensures cause { HasCause (K.faults sink.old) (K.faults sink.new) result }
{
    write_texts(&Turns::of(tree), sink)?;
    write_texts(&Volumes(tree), sink)?;
    write_texts(&Mothers(tree), sink)?;
    write_texts(rays, sink)
}

impl Texts for Rays {
    ghost use Rattle.std.specs.Prelude.{map};
    ghost use Rattle.gx_decl.specs.declared.declaration.Declaration.TheVariants.{Trace};
    ghost use Rattle.gx_list.specs.Pieces.{line};

    ghost texts = { map (λ ray. line (Trace ray)) };

    fn count(&self) -> usize {
        Rays::count(self) as usize
    }

    fn write<K: Sink>(&self, i: usize, sink: &mut K) -> Result<(), Failed> {
        // How many rays there are at most is known from here on.
        let _ = Rays::count(self);
        let ray = self.ray(i as u32);
        write_line(b":RAY", &[Piece::Vector(ray.o), Piece::Vector(ray.d)], sink)
    }
}
