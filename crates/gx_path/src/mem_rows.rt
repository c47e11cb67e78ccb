ghost use Rattle.std.specs.Prelude.{◌≡◌, ◌<◌, ◌==◌, ℕ, Bool, true, [], ◌∷◌, length, slice_index_or, Some, IfOk, IsTrue, IsOk};
ghost use Rattle.gx_io.specs.Bytes.{HasCause, Writes};
ghost use Rattle.gx_io.specs.Memory.{fails_next};
ghost use Rattle.gx_path.specs.Memory.{Keeps};

use crate::{Row, Rows};
use gx_io::Failed;
use gx_num::NoMemory;
use std::alloc::Global;
use std::marker::Model;

/// Rows in memory: it has so much room, and fails at the calls with these numbers, from 1. A call takes no memory.
#[derive(Drop)]
pub struct MemRows {
    kept: Vec<Row>,
    room: u32,
    fails: Vec<u32>,
    calls: u32,
    faults: u64,
}

impl Model for MemRows {
    ghost use Rattle.std.specs.Prelude.{◌<◌, ◌≤◌, ◌^◌, length, vec_capacity};
    ghost use Rattle.gx_path.specs.Memory.{RowsState};

    ghost Value = { RowsState };

    ghost view = { λ m. record { kept = m.kept.items; room = m.room; fails = m.fails.items; calls = m.calls; faults = m.faults } };

    ghost invariant = { λ m. (m.room ≤ vec_capacity m.kept) × (length m.kept.items ≤ m.room) × (m.room < 2 ^ 32) };
}

impl MemRows {
    pub fn new(alloc: Global, room: u32, fails: Vec<u32>) -> Result<MemRows, NoMemory>
        ensures { IfOk result (λ rows. rows ≡ record { kept = []; room = room; fails = fails.items; calls = 0; faults = 0 }) }
    {
        Ok(MemRows {
            kept: Vec::with_capacity(alloc, room as usize)?,
            room,
            fails,
            calls: 0,
            faults: 0,
        })
    }

    pub fn count(&self) -> u32
        ensures { result ≡ length self.now.kept }
    {
        self.kept.len() as u32
    }

    pub fn at(&self, i: u32) -> &Row
        requires { i < length self.now.kept }
        ensures { result.now ≡ slice_index_or self.now.kept i result.now }
    {
        &self.kept[i as usize]
    }
}

impl Rows for MemRows {
    type Item = Row;

    ghost held = { λ m. Some m.kept };

    ghost items = { λ _ row. row ∷ [] };

    ghost takes = { λ _ _. true };

    ghost faults = { λ m. m.faults };

    #[tactic(auto, using(gx_io::proofs::Joined::joined), unfolding(gx_io::specs::Bytes::with_after))]
    fn row(&mut self, row: &Row) -> Result<(), Failed>
        ensures given { Writes (Some self.old.kept) (Some self.new.kept) (row.now ∷ []) result }
        ensures cause { HasCause self.old.faults self.new.faults result }
        ensures exact { Keeps self.old self.new row.now result }
    {
        let fails = fails_next(&self.fails, self.calls);
        self.calls = self.calls.saturating_add(1);
        if fails || self.kept.len() == self.room as usize {
            self.faults = self.faults.saturating_add(1);
            return Err(Failed);
        }
        self.kept.push_reserved(Row {
            from: row.from,
            to: row.to,
            path: row.path.copy(),
        });
        Ok(())
    }
}

// Whether the call after so many is listed as one that fails.
fn fails_next(fails: &[u32], calls: u32) -> bool
    ensures { result ≡ fails_next fails.now calls }
{
    calls < u32::MAX && fails.contains(&(calls + 1))
}
