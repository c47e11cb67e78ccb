ghost use Rattle.std.specs.Prelude.{◌≡◌, ◌≤◌, ◌<◌, ◌++◌, ◌∷◌, [], length, IfOk, OnErr, slice_get, Some, All};
ghost use Rattle.gx_gather.specs.Rays.{IsTraceable};
ghost use Rattle.gx_gather.specs.declared.rays.TheConstants.{MAX_RAYS};

use gx_num::Ray;
use std::alloc::{AllocFailed, Global};
use std::marker::Model;

/// The most rays of a text.
pub const MAX_RAYS: usize = 65536;

/// The rays of a text, in order.
#[derive(Drop)]
pub struct Rays {
    rays: Vec<Ray>,
}

impl Model for Rays {
    ghost use Rattle.std.specs.Prelude.{List, ◌≤◌, length, All};
    ghost use Rattle.gx_num.specs.declared.ray.Ray.{Ray as Line};
    ghost use Rattle.gx_gather.specs.Rays.{IsTraceable};
    ghost use Rattle.gx_gather.specs.declared.rays.TheConstants.{MAX_RAYS};

    ghost Value = { List Line };

    ghost view = { λ r. r.rays.items };

    ghost invariant = { λ r. (length r.rays.items ≤ MAX_RAYS) × All IsTraceable r.rays.items };
}

impl Rays {
    pub fn new(alloc: Global) -> Rays
        ensures { result ≡ [] }
    {
        Rays {
            rays: Vec::new(alloc),
        }
    }

    pub fn count(&self) -> u32
        ensures count { result ≡ length self.now }
        ensures most { result ≤ MAX_RAYS }
        ensures kept { All IsTraceable self.now }
    {
        self.rays.len() as u32
    }

    /// Ray i, from 0.
    pub fn ray(&self, i: u32) -> Ray
        requires { i < length self.now }
        ensures ray { slice_get self.now i ≡ Some result }
        ensures kept { IsTraceable result }
    {
        self.rays[i as usize]
    }

    pub fn push(&mut self, ray: Ray) -> Result<(), AllocFailed<Ray>>
        requires room { length self.old < MAX_RAYS }
        requires kept { IsTraceable ray }
        ensures ok { IfOk result (λ _. self.new ≡ self.old ++ ray ∷ []) }
        ensures err { OnErr result (self.new ≡ self.old) }
    {
        self.rays.push(ray)
    }
}
