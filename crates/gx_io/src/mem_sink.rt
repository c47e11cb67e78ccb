ghost use Rattle.std.specs.Prelude.{◌≡◌, ◌≤◌, ◌<◌, ℕ, [], length, take, Some, IfOk, OnErr, vec_capacity};
ghost use Rattle.gx_io.specs.Bytes.{HasCause, with_after};
ghost use Rattle.gx_io.specs.Memory.{SinkState, Takes};

use crate::calls::fails_next;
use crate::{Failed, Sink};
use gx_num::NoMemory;
use std::alloc::Global;
use std::marker::Model;

/// A sink of bytes in memory that has so much room, takes at most so many in one write, and fails at the calls with these
/// numbers, from 1. A write takes no memory.
#[derive(Drop)]
pub struct MemSink {
    written: Vec<u8>,
    room: usize,
    most: usize,
    fails: Vec<u32>,
    calls: u32,
    faults: u64,
}

impl Model for MemSink {
    ghost Value = { SinkState };

    ghost view = { λ s. record {
      written = s.written.items;
      room = s.room;
      most = s.most;
      fails = s.fails.items;
      calls = s.calls;
      faults = s.faults;
    } };

    ghost invariant = { λ s. (s.room ≤ vec_capacity s.written) × (length s.written.items ≤ s.room) × (0 < s.most) };
}

impl MemSink {
    pub fn new(
        alloc: Global,
        room: usize,
        most: usize,
        fails: Vec<u32>,
    ) -> Result<MemSink, NoMemory>
        requires { 1 ≤ most }
        ensures { IfOk result (λ sink. sink ≡ record { written = []; room = room; most = most; fails = fails.items; calls = 0; faults = 0 }) }
    {
        Ok(MemSink {
            written: Vec::with_capacity(alloc, room)?,
            room,
            most,
            fails,
            calls: 0,
            faults: 0,
        })
    }

    pub fn written(&self) -> &[u8]
        ensures { result.now ≡ self.now.written }
    {
        &self.written
    }
}

impl Sink for MemSink {
    ghost written = { λ s. Some s.written };

    ghost faults = { λ s. s.faults };

    #[tactic(auto, unfolding(crate::specs::Bytes::with_after))]
    fn write(&mut self, piece: &[u8]) -> Result<usize, Failed>
        requires { 0 < length piece.now }
        ensures some { IfOk result (λ n. 0 < n) }
        ensures bound { IfOk result (λ n. n ≤ length piece.now) }
        ensures bytes { IfOk result (λ n. Some self.new.written ≡ with_after (Some self.old.written) (take n piece.now)) }
        ensures err { OnErr result (Some self.new.written ≡ Some self.old.written) }
        ensures cause { HasCause self.old.faults self.new.faults result }
        ensures exact { Takes self.old self.new piece.now result }
    {
        let fails = fails_next(&self.fails, self.calls);
        let n = self
            .most
            .min(piece.len())
            .min(self.room - self.written.len());
        self.calls = self.calls.saturating_add(1);
        if fails || n == 0 {
            self.faults = self.faults.saturating_add(1);
            return Err(Failed);
        }
        self.written.extend_from_slice(&piece[..n]).unwrap();
        Ok(n)
    }
}
