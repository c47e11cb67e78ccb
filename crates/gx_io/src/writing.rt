ghost use Rattle.std.specs.Prelude.{◌≡◌, ◌≤◌, length, take, OnOk};
ghost use Rattle.gx_io.specs.Bytes.{HasCause, Writes, with_after};

use crate::{Failed, Sink};

/// Hands all the bytes to the sink, in as few writes as it allows.
#[tactic(auto, using(crate::proofs::Joined::joined))]
pub fn write_all<K: Sink>(sink: &mut K, bytes: &[u8]) -> Result<(), Failed>
    ensures bytes { Writes (K.written sink.old) (K.written sink.new) bytes.now result }
    ensures cause { HasCause (K.faults sink.old) (K.faults sink.new) result }
{
    write_front(sink, bytes).1
}

// Hands the bytes to the sink until a write fails, and tells how many it took.
pub fn write_front<K: Sink>(sink: &mut K, bytes: &[u8]) -> (usize, Result<(), Failed>)
    ensures bound { result.0 ≤ length bytes.now }
    ensures all { OnOk result.1 (result.0 ≡ length bytes.now) }
    ensures bytes { K.written sink.new ≡ with_after (K.written sink.old) (take result.0 bytes.now) }
    ensures cause { HasCause (K.faults sink.old) (K.faults sink.new) result.1 }
{
    let mut at = 0;
    while at < bytes.len() {
        match sink.write(&bytes[at..]) {
            Ok(n) => at += n,
            Err(failed) => return (at, Err(failed)),
        }
    }
    (at, Ok(()))
}
