ghost use Rattle.std.specs.Prelude.{◌++◌, codes, decimal};
ghost use Rattle.std.specs.Fmt.{signed_decimal};
ghost use Rattle.gx_io.specs.Bytes.{HasCause, Writes};
ghost use Rattle.gx_print.specs.Texts.{after};

use crate::number::write_after;
use gx_io::{Failed, Sink, write_all};

/// Writes a daughter by her volume's name, her ordinal and her copy number.
#[tactic(auto, using(gx_io::proofs::Joined::joined))]
pub fn write_copy<K: Sink>(
    sink: &mut K,
    name: &[u8],
    ordinal: u32,
    copy: &i32,
) -> Result<(), Failed>
    ensures bytes { Writes (K.written sink.old) (K.written sink.new) (name.now ++ after (codes "@") (decimal ordinal) ++ after (codes ":") (signed_decimal copy.now)) result }
    ensures cause { HasCause (K.faults sink.old) (K.faults sink.new) result }
{
    write_all(sink, name)?;
    write_after(sink, b"@", ordinal)?;
    write_after(sink, b":", *copy)
}
