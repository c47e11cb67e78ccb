ghost use Rattle.std.specs.Prelude.{◌≡◌, [], ◌||◌, nat_lt, All, IfOk};
ghost use Rattle.gx_link.specs.Build.{IsLinked};
ghost use Rattle.gx_link.specs.Crowd as spec;

use crate::link::LinkedPlacement;
use gx_num::NoMemory;
use std::alloc::Global;

/// The most daughters of one mother.
const MAX_DAUGHTERS: u32 = 4096;

/// The most daughters of all.
const MAX_INSTANCES: u32 = 65536;

/// The line of the first placement with which there are too many daughters in its mother, or in all.
pub fn first_crowded(
    alloc: Global,
    volumes: usize,
    placements: &[LinkedPlacement],
) -> Result<Option<u32>, NoMemory>
    requires { All (IsLinked volumes) placements.now }
    ensures { IfOk result (λ line. line ≡ spec.first_crowded [] placements.now) }
{
    let mut counts = vec![in alloc; 0; volumes]?;
    let mut all = 0;
    for placed in placements {
        let copies = placed.placement.count();
        let mother = placed.mother as usize;
        let count = counts[mother] + copies;
        all += copies;
        if is_crowd(count, all) {
            return Ok(Some(placed.line));
        }
        counts[mother] = count;
    }
    Ok(None)
}

fn is_crowd(count: u32, all: u32) -> bool
    ensures { result ≡ (nat_lt 4096 count || nat_lt 65536 all) }
{
    count > MAX_DAUGHTERS || all > MAX_INSTANCES
}
