ghost use Rattle.std.specs.Prelude.{◌≡◌, ◌<◌, ◌≤◌, ◌+◌, ◌<ℤ◌, length, slice_index_or};

use crate::Members;
use gx_steps::Steps;
use std::sync::ledger::Ledger;

/// What stands in a part of space: some members, or a header where it is cut.
#[cycle(proxy)]
#[derive(Drop)]
pub enum Proxy {
    Node(Members),
    Refined(Box<Header>),
}

/// Consecutive slices with the same members, and what stands in them.
#[cycle(proxy)]
#[derive(Drop)]
pub struct Run {
    first: u32,
    last: u32,
    low: i64,
    high: i64,
    proxy: Proxy,
}

/// A part of space that is cut along an axis.
#[cycle(proxy)]
#[derive(Drop)]
pub struct Header {
    axis: u8,
    runs: Vec<Run>,
}

impl Run {
    ghost use Rattle.gx_voxel.specs.Proxy.{first_of, last_of, low_of, high_of, proxy_of};

    /// Slices `first` to `last`, from the coordinate `low` up to, and without, `high`.
    pub fn new(first: u32, last: u32, low: i64, high: i64, proxy: Proxy) -> Run
        requires slices { first ≤ last }
        requires bounds { low <ℤ high }
        ensures first { first_of result ≡ first }
        ensures last { last_of result ≡ last }
        ensures low { low_of result ≡ low }
        ensures high { high_of result ≡ high }
        ensures proxy { proxy_of result ≡ proxy }
    {
        Run {
            first,
            last,
            low,
            high,
            proxy,
        }
    }

    /// The first slice.
    pub fn first(&self) -> u32
        ensures { result ≡ first_of self.now }
    {
        self.first
    }

    /// The last slice.
    pub fn last(&self) -> u32
        ensures { result ≡ last_of self.now }
    {
        self.last
    }

    /// The coordinate at which the run begins, in steps.
    pub fn low(&self) -> i64
        ensures { result ≡ low_of self.now }
    {
        self.low
    }

    /// The coordinate before which the run ends, in steps.
    pub fn high(&self) -> i64
        ensures { result ≡ high_of self.now }
    {
        self.high
    }

    /// What stands in the run.
    pub fn proxy(&self) -> &Proxy
        ensures { result.now ≡ proxy_of self.now }
    {
        &self.proxy
    }
}

impl Header {
    ghost use Rattle.gx_voxel.specs.Proxy.{axis_of, list_of, AreRuns};

    /// The runs along an axis, 0 to 2 for X to Z.
    pub fn new(axis: u8, runs: Vec<Run>) -> Header
        requires axis { axis < 3 }
        requires runs { AreRuns runs.items }
        ensures axis { axis_of result ≡ axis }
        ensures runs { list_of result ≡ runs.items }
    {
        Header { axis, runs }
    }

    /// The axis of the cut.
    pub fn axis(&self) -> u8
        ensures { result ≡ axis_of self.now }
    {
        self.axis
    }

    /// How many runs there are: at most 1000, as in each header that `new` made.
    pub fn run_count(&self) -> u32
        requires { length (list_of self.now) ≤ 1000 }
        ensures { result ≡ length (list_of self.now) }
    {
        self.runs.len() as u32
    }

    /// The i-th run, from 0: one read more.
    pub fn run_at<L: Ledger>(&self, i: u32, reads: &mut Steps<L>) -> &Run
        requires { i < length (list_of self.now) }
        ensures run { result.now ≡ slice_index_or (list_of self.now) i result.now }
        ensures reads { reads.new ≡ reads.old + 1 }
    {
        reads.tick();
        &self.runs[i as usize]
    }
}
