ghost use Rattle.std.specs.Prelude.{[], ◌∷◌, ◌++◌, map, flat_map};
ghost use Rattle.std.specs.Fmt.{signed_decimal};
ghost use Rattle.gx_io.specs.Bytes.{HasCause, Writes};
ghost use Rattle.gx_canon.specs.Words.{scale_word, vector_words};
ghost use Rattle.gx_list.specs.Pieces.{words_in, spaced, line_of};

use crate::texts::{Texts, write_texts};
use gx_io::{Failed, Sink, write_all};
use gx_num::V3;
use gx_shapes::Scale;
use itoa::{Buffer, Integer};

/// What a line is written from.
#[derive(Clone, Copy)]
pub enum Piece<'a> {
    Word(&'a [u8]),
    Count(usize),
    Copy(i32),
    Length(&'a i64),
    Vector(V3),
    Ratio(Scale),
    /// The name of the rotation with this number.
    Turn(u8),
}

// The pieces of a line, each word after a blank.
#[derive(Clone, Copy)]
struct Pieces<'a>(&'a [Piece<'a>]);

impl Texts for Pieces<'_> {
    ghost texts = { λ pieces. map (λ piece. spaced (words_in piece)) pieces.0.now };

    fn count(&self) -> usize {
        self.0.len()
    }

    fn write<K: Sink>(&self, i: usize, sink: &mut K) -> Result<(), Failed> {
        write_piece(&self.0[i], sink)
    }
}

/// Writes a line: this word, and those that the pieces give.
#[tactic(auto, using(gx_io::proofs::Joined::joined, crate::proofs::Lines::line_is))]
pub fn write_line<K: Sink>(tag: &[u8], pieces: &[Piece], sink: &mut K) -> Result<(), Failed>
    ensures bytes { Writes (K.written sink.old) (K.written sink.new) (line_of (tag.now ∷ flat_map words_in pieces.now)) result }
    ensures cause { HasCause (K.faults sink.old) (K.faults sink.new) result }
{
    write_all(sink, tag)?;
    write_last(pieces, sink)
}

/// Writes the last words of a line.
#[tactic(auto, using(gx_io::proofs::Joined::joined))]
pub fn write_last<K: Sink>(pieces: &[Piece], sink: &mut K) -> Result<(), Failed>
    ensures bytes { Writes (K.written sink.old) (K.written sink.new) (spaced (flat_map words_in pieces.now) ++ 10 ∷ []) result }
    ensures cause { HasCause (K.faults sink.old) (K.faults sink.new) result }
{
    write_pieces(pieces, sink)?;
    write_all(sink, b"\n")
}

/// Writes a blank before each of the words that the pieces give.
#[tactic(auto, using(crate::proofs::Lines::spaced_each))]
pub fn write_pieces<K: Sink>(pieces: &[Piece], sink: &mut K) -> Result<(), Failed>
    ensures bytes { Writes (K.written sink.old) (K.written sink.new) (spaced (flat_map words_in pieces.now)) result }
    ensures cause { HasCause (K.faults sink.old) (K.faults sink.new) result }
{
    write_texts(&Pieces(pieces), sink)
}

#[tactic(auto, unfolding(crate::specs::Pieces::spaced))]
fn write_piece<K: Sink>(piece: &Piece, sink: &mut K) -> Result<(), Failed>
    ensures bytes { Writes (K.written sink.old) (K.written sink.new) (spaced (words_in piece.now)) result }
    ensures cause { HasCause (K.faults sink.old) (K.faults sink.new) result }
{
    match piece {
        Piece::Word(word) => write_word(b" ", word, sink),
        Piece::Count(count) => write_number(b" ", *count, sink),
        Piece::Copy(copy) => write_number(b" ", *copy, sink),
        Piece::Length(length) => write_length(length, sink),
        Piece::Vector(v) => write_vector(v, sink),
        Piece::Ratio(scale) => write_ratio(b" ", scale, sink),
        Piece::Turn(k) => write_number(b" R", *k, sink),
    }
}

#[tactic(auto, using(gx_io::proofs::Joined::joined, crate::proofs::Lines::spaced_three))]
fn write_vector<K: Sink>(v: &V3, sink: &mut K) -> Result<(), Failed>
    ensures bytes { Writes (K.written sink.old) (K.written sink.new) (spaced (vector_words v.now)) result }
    ensures cause { HasCause (K.faults sink.old) (K.faults sink.new) result }
{
    write_length(&v.x, sink)?;
    write_length(&v.y, sink)?;
    write_length(&v.z, sink)
}

#[tactic(auto, unfolding(crate::specs::Pieces::spaced))]
fn write_length<K: Sink>(length: &i64, sink: &mut K) -> Result<(), Failed>
    ensures bytes { Writes (K.written sink.old) (K.written sink.new) (spaced (signed_decimal length.now ∷ [])) result }
    ensures cause { HasCause (K.faults sink.old) (K.faults sink.new) result }
{
    write_number(b" ", *length, sink)
}

// A denominator of 1 is left out.
#[tactic(auto, using(gx_io::proofs::Joined::joined, crate::proofs::Lines::ratio_is))]
fn write_ratio<K: Sink>(head: &[u8], scale: &Scale, sink: &mut K) -> Result<(), Failed>
    ensures bytes { Writes (K.written sink.old) (K.written sink.new) (head.now ++ scale_word scale.now) result }
    ensures cause { HasCause (K.faults sink.old) (K.faults sink.new) result }
{
    if scale.den.unsigned_abs() == 1 {
        return write_number(head, scale.num, sink);
    }
    write_number(head, scale.num, sink)?;
    write_number(b"/", scale.den.unsigned_abs(), sink)
}

// The bytes that stand before a word are a parameter, so that proofs join a text from its parts, and not from bytes.

#[tactic(auto, using(gx_io::proofs::Joined::joined))]
fn write_number<K: Sink, N: Integer>(head: &[u8], number: N, sink: &mut K) -> Result<(), Failed>
    ensures bytes { Writes (K.written sink.old) (K.written sink.new) (head.now ++ N.text number) result }
    ensures cause { HasCause (K.faults sink.old) (K.faults sink.new) result }
{
    write_word(head, Buffer::new().format(number).as_bytes(), sink)
}

#[tactic(auto, using(gx_io::proofs::Joined::joined))]
fn write_word<K: Sink>(head: &[u8], word: &[u8], sink: &mut K) -> Result<(), Failed>
    ensures bytes { Writes (K.written sink.old) (K.written sink.new) (head.now ++ word.now) result }
    ensures cause { HasCause (K.faults sink.old) (K.faults sink.new) result }
{
    write_all(sink, head)?;
    write_all(sink, word)
}
