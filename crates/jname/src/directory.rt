//! What is stored of one directory: its names, and the greatest version of its entries.

ghost use Rattle.std.specs.Prelude.{◌≡◌, ◌≤◌, ◌==◌, ◌&&◌, ℕ, List, Some, None, IsSome, IfOk, OnOk, OnErr, if◌then◌else◌, bytes_eq};
ghost use Rattle.std.specs.Cow.{cow_slice_items};
ghost use Rattle.jname.specs.Versions.{Agrees, Differs};
ghost use Rattle.jname.specs.ContentsByName.{content_in, HasSameContents};
ghost use Rattle.jname.specs.NameMaps.{names_in};

use crate::NameFault;
use crate::name_map::NameMap;
use crate::versions::{Content, Versions};
use std::alloc::{AllocError, Global};
use std::borrow::CowSlice;

/// The entries of one directory, which has one at least.
#[derive(Drop)]
pub struct Directory<'a> {
    pub names: NameMap<'a>,
    pub highest: u32,
    ghost bounds: { (name : List ℕ) (v : ℕ) → IsSome (content_in (names_in names) name v)
        → v ≤ highest },
    ghost reached: { ((name : List ℕ) → content_in (names_in names) name highest ≡ None) → ⊥ },
}

impl<'a> Directory<'a> {
    ghost use Rattle.jname.specs.Directories.{content_under};

    /// One content, under a name at a version.
    pub fn of_one(
        alloc: Global,
        name: CowSlice<'a, u8>,
        version: u32,
        content: Content,
    ) -> Result<Self, AllocError>
        ensures { IfOk result (λ directory. (n : List ℕ) (v : ℕ)
            → content_under directory n v ≡ (if bytes_eq (cow_slice_items name.entry) n
            && version == v then Some content else None)) }
    {
        let names = NameMap::of_one(alloc, name, Versions::of_one(version, content))?;
        Ok(Directory {
            names,
            highest: version,
        })
    }

    /// Holds a content under a name at a version.
    pub fn add(
        &mut self,
        alloc: Global,
        name: CowSlice<'a, u8>,
        version: u32,
        content: Content,
    ) -> Result<(), NameFault>
        ensures clash { result ≡ Err NameFault.Clash
            → Differs (content_under self.old (cow_slice_items name.entry) version) content }
        ensures alone { OnOk result
            (Agrees (content_under self.old (cow_slice_items name.entry) version) content) }
        ensures ok { OnOk result ((n : List ℕ) (v : ℕ)
            → content_under self.new n v ≡ (if bytes_eq (cow_slice_items name.entry) n
            && version == v then Some content else content_under self.old n v)) }
        ensures err { OnErr result
            (HasSameContents (names_in self.old.names) (names_in self.new.names)) }
    {
        self.names.add(alloc, name, version, content)?;
        self.highest = self.highest.max(version);
        Ok(())
    }
}
