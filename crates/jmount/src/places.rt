//! Where the nodes of one number stand, by version.

ghost use Rattle.std.specs.Prelude.{◌≡◌, [], IfOk, length};
ghost use Rattle.std.specs.Ordering.{nat_cmp};
ghost use Rattle.std.specs.BTreeMap.{IsOrdered};
ghost use Rattle.std.proofs.Props.{props};

use jnode::InodeNode;
use std::alloc::{AllocError, Global};
use std::collections::BTreeMap;

/// Where nodes stand, by version: the first `listed` of them.
#[derive(Drop)]
pub struct Places {
    pub map: BTreeMap<u32, usize>,
    pub listed: usize,
    ghost ordered: { IsOrdered nat_cmp map } by { Prim.hlevel props },
}

impl Places {
    ghost use Rattle.jmount.specs.Places.{AreVersionPlaces};

    pub fn new(alloc: Global) -> Places
        ensures { AreVersionPlaces [] result }
    {
        Places {
            map: BTreeMap::new(alloc),
            listed: 0,
        }
    }

    /// Lists those that are not listed yet.
    pub fn list(&mut self, nodes: &[InodeNode<'_>]) -> Result<(), AllocError>
        requires { AreVersionPlaces nodes.now self.old }
        ensures places { IfOk result (λ _. AreVersionPlaces nodes.now self.new) }
        ensures all { IfOk result (λ _. self.new.listed ≡ length nodes.now) }
    {
        while let Some(node) = nodes.get(self.listed) {
            self.map.insert(node.version, self.listed)?;
            self.listed += 1;
        }
        Ok(())
    }
}
