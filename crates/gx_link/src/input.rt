ghost use Rattle.std.specs.Prelude.{◌≡◌, IfOk, IfErr, Ok};
ghost use Rattle.gx_gather.specs.Faults.{IsCause};
ghost use Rattle.gx_link.specs.Text.{input_of};

use crate::known::Known;
use crate::link::link;
use crate::tree::tree_from;
use gx_gather::{Gathered, Parts, Rays, ReadError};
use gx_tree::Hierarchy;
use std::alloc::Global;

/// The hierarchy and the rays that a text declares.
#[derive(Drop)]
pub struct Input {
    pub tree: Hierarchy,
    pub rays: Rays,
}

/// What all lines declare, once the last is read: names are resolved, daughters counted, and the hierarchy judged.
pub fn input_from(alloc: Global, gathered: Gathered) -> Result<Input, ReadError>
    ensures ok { IfOk result (λ input. input_of gathered.so_far ≡ Ok input) }
    ensures err { IfErr result (IsCause (input_of gathered.so_far)) }
{
    let Parts {
        solids,
        turns,
        volumes,
        items,
        rays,
    } = gathered.into_parts();
    let known = Known {
        solids,
        turns,
        volumes,
    };
    let links = link(alloc, &known, items)?;
    let tree = tree_from(alloc, links)?;
    Ok(Input { tree, rays })
}
