ghost use Rattle.std.specs.Prelude.{◌≡◌, ◌<◌, ◌≤◌, ◌++◌, [], length, vec_len, vec_capacity, take, drop, IfOk, OnOk, OnErr};
ghost use Rattle.gx_io.specs.Bytes.{HasCause, AppendsBut};

use crate::writing::write_front;
use crate::{Failed, Sink};
use gx_num::NoMemory;
use std::alloc::Global;
use std::marker::Model;

/// The most bytes that are read at once, or gathered before they are handed on.
pub const PIECE: usize = 65536;

/// Memory for at most 65,536 bytes that are still to be written. Contracts see it as these bytes.
#[derive(Drop)]
pub struct Buffer {
    pending: Vec<u8>,
}

impl Model for Buffer {
    ghost use Rattle.std.specs.Prelude.{ℕ, ◌≤◌, List, length, vec_capacity};
    ghost use Rattle.gx_io.specs.declared.buffer.TheConstants.{PIECE};

    ghost Value = { List ℕ };

    ghost view = { λ b. b.pending.items };

    ghost invariant = { λ b. (length b.pending.items ≤ PIECE) × (PIECE ≤ vec_capacity b.pending) };
}

impl Buffer {
    /// An empty buffer with all its memory.
    pub fn new(alloc: Global) -> Result<Buffer, NoMemory>
        ensures { IfOk result (λ buffer. buffer ≡ []) }
    {
        Ok(Buffer {
            pending: Vec::with_capacity(alloc, PIECE)?,
        })
    }

    // Gathers a front of the piece. Where the buffer is full, all is handed on before.
    pub(crate) fn gather<K: Sink>(&mut self, sink: &mut K, piece: &[u8]) -> Result<usize, Failed>
        requires { 0 < length piece.now }
        ensures some { IfOk result (λ n. 0 < n) }
        ensures bound { IfOk result (λ n. n ≤ length piece.now) }
        ensures bytes { IfOk result (λ n. AppendsBut (K.written sink.old) (K.written sink.new) (self.old ++ take n piece.now) self.new) }
        ensures err { OnErr result (AppendsBut (K.written sink.old) (K.written sink.new) self.old self.new) }
        ensures cause { HasCause (K.faults sink.old) (K.faults sink.new) result }
    {
        self.make_room(sink)?;
        let n = piece.len().min(PIECE - self.pending.len());
        self.pending.extend_from_slice(&piece[..n]).unwrap();
        Ok(n)
    }

    // Hands all on where the buffer is full.
    fn make_room<K: Sink>(&mut self, sink: &mut K) -> Result<(), Failed>
        ensures bytes { AppendsBut (K.written sink.old) (K.written sink.new) self.old self.new }
        ensures room { OnOk result (length self.new < PIECE) }
        ensures cause { HasCause (K.faults sink.old) (K.faults sink.new) result }
    {
        if self.pending.len() == PIECE {
            self.hand_on(sink)
        } else {
            Ok(())
        }
    }

    // Hands all on. What was handed on is no longer pending, also at an error.
    pub(crate) fn hand_on<K: Sink>(&mut self, sink: &mut K) -> Result<(), Failed>
        ensures bytes { AppendsBut (K.written sink.old) (K.written sink.new) self.old self.new }
        ensures all { OnOk result (self.new ≡ []) }
        ensures cause { HasCause (K.faults sink.old) (K.faults sink.new) result }
    {
        let (taken, result) = write_front(sink, &self.pending);
        remove_front(&mut self.pending, taken);
        result
    }
}

fn remove_front(bytes: &mut Vec<u8>, count: usize)
    requires { count ≤ vec_len bytes.old }
    ensures items { bytes.new.items ≡ drop count bytes.old.items }
    ensures capacity { vec_capacity bytes.new ≡ vec_capacity bytes.old }
{
    bytes.rotate_left(count);
    bytes.truncate(bytes.len() - count);
}
