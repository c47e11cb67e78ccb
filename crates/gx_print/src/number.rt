ghost use Rattle.std.specs.Prelude.{decimal};
ghost use Rattle.gx_fraction.specs.Fraction.{parameter_of};
ghost use Rattle.gx_io.specs.Bytes.{HasCause, Writes};
ghost use Rattle.gx_print.specs.Texts.{after, fraction_text};

use gx_fraction::Frac;
use gx_io::{Failed, Sink, write_all};
use itoa::{Buffer, Integer};

/// Writes a number in decimal.
pub fn write_number<K: Sink, N: Integer>(sink: &mut K, number: N) -> Result<(), Failed>
    ensures bytes { Writes (K.written sink.old) (K.written sink.new) (N.text number) result }
    ensures cause { HasCause (K.faults sink.old) (K.faults sink.new) result }
{
    write_all(sink, Buffer::new().format(number).as_bytes())
}

/// Writes a number behind some text.
#[tactic(auto, using(gx_io::proofs::Joined::joined), unfolding(crate::specs::Texts::after))]
pub fn write_after<K: Sink, N: Integer>(
    sink: &mut K,
    before: &[u8],
    number: N,
) -> Result<(), Failed>
    ensures bytes { Writes (K.written sink.old) (K.written sink.new) (after before.now (N.text number)) result }
    ensures cause { HasCause (K.faults sink.old) (K.faults sink.new) result }
{
    write_all(sink, before)?;
    write_number(sink, number)
}

/// Writes a fraction that isn't negative; a denominator of 1 is left out.
#[tactic(auto, using(gx_io::proofs::Joined::joined))]
pub fn write_fraction<K: Sink>(sink: &mut K, fraction: &Frac) -> Result<(), Failed>
    ensures bytes { Writes (K.written sink.old) (K.written sink.new) (fraction_text (parameter_of fraction.now)) result }
    ensures cause { HasCause (K.faults sink.old) (K.faults sink.new) result }
{
    write_wide(sink, fraction.num().unsigned_abs())?;
    if fraction.den() == 1 {
        return Ok(());
    }
    write_all(sink, b"/")?;
    write_wide(sink, fraction.den().unsigned_abs())
}

// A number of 128 bits, which is written faster where it fits 64.
fn write_wide<K: Sink>(sink: &mut K, number: u128) -> Result<(), Failed>
    ensures bytes { Writes (K.written sink.old) (K.written sink.new) (decimal number) result }
    ensures cause { HasCause (K.faults sink.old) (K.faults sink.new) result }
{
    match u64::try_from(number) {
        Ok(short) => write_number(sink, short),
        Err(_) => write_number(sink, number),
    }
}
