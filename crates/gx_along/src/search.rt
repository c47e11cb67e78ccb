ghost use Rattle.std.specs.Prelude.{◌≡◌, ℕ, ◌<◌, ◌≤◌, ◌+◌, ◌^◌, true, false, length, unsigned_abs};
ghost use Rattle.gx_along.specs.Digits.{digits};
ghost use Rattle.gx_voxel.specs.Proxy.{list_of, low_of, high_of};
ghost use Rattle.gx_along.specs.Line.{time};
ghost use Rattle.gx_along.specs.Runs.{IsRising, is_before, is_run_before, low_at, high_at};

use crate::{Bounds, Line, Time, is_left};
use gx_steps::Steps;
use gx_voxel::{Header, Run};
use std::sync::ledger::Ledger;

// The bounds of a run.
fn read_bounds<L: Ledger>(header: &Header, i: u32, reads: &mut Steps<L>) -> Bounds
    requires rising { IsRising header.now }
    requires i { i < length (list_of header.now) }
    ensures low { result.low ≡ low_at header.now i }
    ensures high { result.high ≡ high_at header.now i }
    ensures few { unsigned_abs result.low ≤ 2 ^ 31 }
    ensures small { unsigned_abs result.high ≤ 2 ^ 31 }
    ensures reads { reads.new ≡ reads.old + 1 }
{
    bounds(header.run_at(i, reads))
}

fn bounds(run: &Run) -> Bounds
    ensures low { result.low ≡ low_of run.now }
    ensures high { result.high ≡ high_of run.now }
{
    Bounds {
        low: run.low(),
        high: run.high(),
    }
}

fn is_before<L: Ledger>(header: &Header, line: Line, at: Time, i: u32, reads: &mut Steps<L>) -> bool
    requires o { unsigned_abs line.o ≤ 2 ^ 31 }
    requires rising { IsRising header.now }
    requires i { i < length (list_of header.now) }
    ensures value { result ≡ is_before line.o line.d header.now (time at) i }
    ensures reads { reads.new ≡ reads.old + 1 }
{
    is_run_before(line, read_bounds(header, i, reads), at)
}

#[tactic(auto, unfolding(crate::specs::Runs::is_run_before))]
fn is_run_before(line: Line, run: Bounds, at: Time) -> bool
    requires o { unsigned_abs line.o ≤ 2 ^ 31 }
    requires low { unsigned_abs run.low ≤ 2 ^ 31 }
    requires high { unsigned_abs run.high ≤ 2 ^ 31 }
    ensures { result ≡ is_run_before line.o line.d run.low run.high (time at) }
{
    let left = is_left(line, run, at);
    if line.d < 0 { !left } else { left }
}

/// How many runs stand before the one in which the ray goes on after a time, by halving; a run is read at least, where there is one.
pub fn first_left<L: Ledger>(header: &Header, line: Line, at: Time, reads: &mut Steps<L>) -> u32
    requires o { unsigned_abs line.o ≤ 2 ^ 31 }
    requires rising { IsRising header.now }
    ensures bound { result ≤ length (list_of header.now) }
    ensures before { (i : ℕ) → i < result → is_before line.o line.d header.now (time at) i ≡ true }
    ensures after { (i : ℕ) → result ≤ i → i < length (list_of header.now) → is_before line.o line.d header.now (time at) i ≡ false }
    ensures reads { reads.new ≤ reads.old + digits (length (list_of header.now)) }
    ensures some { 0 < length (list_of header.now) → reads.old < reads.new }
{
    let mut low = 0;
    let mut high = header.run_count();
    while low < high {
        let middle = low + (high - low) / 2;
        if is_before(header, line, at, middle, reads) {
            low = middle + 1;
        } else {
            high = middle;
        }
    }
    low
}
