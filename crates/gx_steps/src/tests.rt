ghost use Rattle.std.specs.Prelude.{◌≡◌, ◌<◌};

use crate::Steps;
use std::marker::Brand;
use std::mem::size_of;
use std::sync::ledger::{Blank, Ledger};

// Takes a step, and tells the size of the counter.
fn size_after_a_step<L: Ledger>(blank: Blank) -> usize
    requires name { blank.name ≡ L.name }
    requires parts { blank.parts ≡ L.parts }
    requires some { 0 < L.parts }
{
    let mut steps: Steps<L> = Steps::new(blank);
    steps.tick();
    size_of::<Steps<L>>()
}

#[test]
fn a_counter_takes_no_bytes(rt: HostRuntime) {
    assert_eq!(rt; size_after_a_step::<Brand>(Blank::new(1)), 0);
}
