//! The contents of several entries of one name, by version.

ghost use Rattle.std.specs.Prelude.{◌≡◌, ◌<◌, ◌==◌, ℕ, Some, None, IsSome, OnOk, OnErr, if◌then◌else◌};
ghost use Rattle.std.specs.Ordering.{nat_cmp};
ghost use Rattle.std.specs.BTreeMap.{IsOrdered, get};
ghost use Rattle.std.proofs.Props.{props};

use crate::NameFault;
use crate::older::{add_older, agree};
use crate::versions::Content;
use std::alloc::Global;
use std::collections::BTreeMap;

/// Contents by version, that of the greatest apart.
#[derive(Drop)]
pub struct Sorted {
    pub greatest: u32,
    pub newest: Content,
    pub older: BTreeMap<u32, Content>,
    ghost ordered: { IsOrdered nat_cmp older } by { Prim.hlevel props },
    ghost below: { (v : ℕ) → IsSome (get nat_cmp older v) → v < greatest },
}

impl Sorted {
    ghost use Rattle.jname.specs.Versions.{contents_in_order, sorted_at, Agrees, Differs};

    /// One content, at a version. Takes no memory.
    pub fn of_one(alloc: Global, version: u32, content: Content) -> Self
        ensures { (v : ℕ) → sorted_at result v ≡ (if version == v then Some content else None) }
    {
        Sorted {
            greatest: version,
            newest: content,
            older: BTreeMap::new(alloc),
        }
    }

    /// Holds a content at a version.
    pub fn add(&mut self, version: u32, content: Content) -> Result<(), NameFault>
        ensures clash { result ≡ Err NameFault.Clash
            → Differs (sorted_at self.old version) content }
        ensures alone { OnOk result (Agrees (sorted_at self.old version) content) }
        ensures ok { OnOk result ((v : ℕ) → sorted_at self.new v
            ≡ (if version == v then Some content else sorted_at self.old v)) }
        ensures err { OnErr result (contents_in_order self.new ≡ contents_in_order self.old) }
    {
        if version == self.greatest {
            return agree(self.newest, content);
        }
        if version < self.greatest {
            return add_older(&mut self.older, version, content);
        }
        self.older.insert(self.greatest, self.newest)?;
        self.greatest = version;
        self.newest = content;
        Ok(())
    }
}
