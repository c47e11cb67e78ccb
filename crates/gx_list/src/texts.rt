ghost use Rattle.std.specs.Prelude.{◌≡◌, ◌<◌, ℕ, List, [], length, slice_index_or};
ghost use Rattle.std.specs.List.{concat};
ghost use Rattle.gx_io.specs.Bytes.{HasCause, Writes};

use gx_io::{Failed, Sink};

/// Texts by their numbers.
pub trait Texts {
    ghost texts: { Self → List (List ℕ) };

    fn count(&self) -> usize
        ensures { result ≡ length (texts self.now) };

    /// Writes text i, from 0.
    fn write<K: Sink>(&self, i: usize, sink: &mut K) -> Result<(), Failed>
        requires { i < length (texts self.now) }
        ensures bytes { Writes (K.written sink.old) (K.written sink.new) (slice_index_or (texts self.now) i []) result }
        ensures cause { HasCause (K.faults sink.old) (K.faults sink.new) result };
}

/// Writes one text after another.
#[tactic(auto, using(gx_io::proofs::Joined::joined, crate::proofs::Series::one_more_text))]
pub fn write_texts<K: Sink, T: Texts>(texts: &T, sink: &mut K) -> Result<(), Failed>
    ensures bytes { Writes (K.written sink.old) (K.written sink.new) (concat (T.texts texts.now)) result }
    ensures cause { HasCause (K.faults sink.old) (K.faults sink.new) result }
{
    for i in 0..texts.count() {
        texts.write(i, sink)?;
    }
    Ok(())
}
