//! The names of a directory.

ghost use Rattle.std.specs.Prelude.{◌≡◌, ◌≢◌, ◌==◌, ◌&&◌, ◌++◌, ℕ, List, [], ◌∷◌, Some, None, IfOk, OnOk, OnErr, if◌then◌else◌, bytes_eq, option_map};
ghost use Rattle.std.specs.Cow.{cow_slice_items};
ghost use Rattle.std.specs.List.Sorted.{IsStrictlySortedBy};
ghost use Rattle.std.specs.Map.{keys_of};
ghost use Rattle.std.specs.BTreeMap.{IsOrdered};
ghost use Rattle.std.proofs.Props.{props};
ghost use Rattle.jname.specs.Versions.{Agrees, Differs};
ghost use Rattle.jname.specs.ContentsByName.{content_in, name_cmp, versions_of_name, HasSameContents};

use crate::NameFault;
use crate::few::{Few, place_of, put, spread};
use crate::versions::{Content, Versions};
use std::alloc::{AllocError, Global};
use std::borrow::CowSlice;
use std::collections::BTreeMap;
use std::collections::btree_map::Iter;
use std::slice;

/// Names in byte order. One that lies whole in its image is borrowed.
pub type ByName<'a> = BTreeMap<CowSlice<'a, u8>, Versions>;

/// The most names that are held without a map.
const FEW: usize = 8;

/// The names of a directory, each with its versions. A few are held in a row, since most
/// directories have no more: a map takes room for fifteen at once. Between the two they may be in
/// both, those of the row before those of the map.
#[derive(Drop)]
pub struct NameMap<'a> {
    pub few: Few<'a>,
    pub map: ByName<'a>,
    ghost ordered: { IsStrictlySortedBy name_cmp
        (keys_of (few.items ++ map.entries)) } by { Prim.hlevel props },
}

impl<'a> NameMap<'a> {
    ghost use Rattle.jname.specs.NameMaps.{names_in, names_left};

    /// No names.
    pub fn new(alloc: Global) -> Self
        ensures { names_in result ≡ [] }
    {
        NameMap {
            few: Vec::new(alloc),
            map: BTreeMap::new(alloc),
        }
    }

    /// One name.
    pub fn of_one(
        alloc: Global,
        name: CowSlice<'a, u8>,
        versions: Versions,
    ) -> Result<Self, AllocError>
        ensures { IfOk result (λ names. names_in names ≡ (name.entry, versions) ∷ []) }
    {
        let mut few = Vec::with_capacity(alloc, 1)?;
        few.push_reserved((name, versions));
        Ok(NameMap {
            few,
            map: BTreeMap::new(alloc),
        })
    }

    /// The names in byte order, with their versions.
    pub fn iter(&self) -> NameIter<'_, 'a>
        ensures { names_left result ≡ names_in self.now }
    {
        NameIter {
            few: self.few.iter(),
            left: self.map.iter(),
        }
    }

    /// The versions of a name.
    pub fn get(&self, name: &[u8]) -> Option<&Versions>
        ensures { option_map (λ versions. versions.now) result
            ≡ versions_of_name (names_in self.now) name.now }
    {
        match place_of(&self.few, name) {
            Ok(place) => Some(&self.few[place].1),
            Err(_) => self.map.get(name),
        }
    }

    /// Holds a content under a name at a version.
    pub fn add(
        &mut self,
        alloc: Global,
        name: CowSlice<'a, u8>,
        version: u32,
        content: Content,
    ) -> Result<(), NameFault>
        ensures clash { result ≡ Err NameFault.Clash
            → Differs (content_in (names_in self.old) (cow_slice_items name.entry) version)
            content }
        ensures alone { OnOk result
            (Agrees (content_in (names_in self.old) (cow_slice_items name.entry) version) content) }
        ensures ok { OnOk result ((n : List ℕ) (v : ℕ)
            → content_in (names_in self.new) n v
            ≡ (if bytes_eq (cow_slice_items name.entry) n
            && version == v then Some content else content_in (names_in self.old) n v)) }
        ensures err { OnErr result (HasSameContents (names_in self.old) (names_in self.new)) }
    {
        match place_of(&self.few, name.as_slice()) {
            Ok(place) => self.few[place].1.add(alloc, version, content),
            Err(place) => {
                if self.few.len() < FEW && self.map.is_empty() {
                    return put(
                        &mut self.few,
                        place,
                        name,
                        Versions::of_one(version, content),
                    );
                }
                spread(alloc, &mut self.few, &mut self.map)?;
                add_name(alloc, &mut self.map, name, version, content)
            }
        }
    }
}

/// The names of a directory with their versions, in byte order.
#[derive(Drop)]
pub struct NameIter<'n, 'a> {
    few: slice::Iter<'n, (CowSlice<'a, u8>, Versions)>,
    left: Iter<'n, CowSlice<'a, u8>, Versions>,
}

impl<'n, 'a> Iterator for NameIter<'n, 'a> {
    type Item = (&'n CowSlice<'a, u8>, &'n Versions);

    ghost use Rattle.std.specs.Iterator.{YieldsFirstBy, item_count};
    ghost use Rattle.jname.specs.NameMaps.{names_left};

    ghost next_gives = { YieldsFirstBy (λ x. (x.0.now, x.1.now)) names_left };

    ghost remaining = { item_count names_left };

    fn next(&mut self) -> Option<(&'n CowSlice<'a, u8>, &'n Versions)> {
        match self.few.next() {
            Some((name, versions)) => Some((name, versions)),
            None => self.left.next(),
        }
    }
}

/// Holds a content under a name at a version.
fn add_name<'a>(
    alloc: Global,
    names: &mut ByName<'a>,
    name: CowSlice<'a, u8>,
    version: u32,
    content: Content,
) -> Result<(), NameFault>
    ensures clash { result ≡ Err NameFault.Clash
        → Differs (content_in names.old.entries (cow_slice_items name.entry) version) content }
    ensures alone { OnOk result
        (Agrees (content_in names.old.entries (cow_slice_items name.entry) version) content) }
    ensures ok { OnOk result ((n : List ℕ) (v : ℕ) → content_in names.new.entries n v
        ≡ (if bytes_eq (cow_slice_items name.entry) n
        && version == v then Some content else content_in names.old.entries n v)) }
    ensures unchanged { OnErr result (HasSameContents names.old.entries names.new.entries) }
    ensures ordered { IsOrdered name_cmp names.new }
{
    if let Some(versions) = names.get_mut(name.as_slice()) {
        return versions.add(alloc, version, content);
    }
    names.insert(name, Versions::of_one(version, content))?;
    Ok(())
}
