//! The entry map.

ghost use Rattle.std.specs.Prelude.{◌≡◌, ◌↔◌, ◌==◌, ◌&&◌, ℕ, List, [], Some, None, IfOk, OnOk, OnErr, if◌then◌else◌, bytes_eq};
ghost use Rattle.std.specs.Ordering.{nat_cmp};
ghost use Rattle.std.specs.Cow.{cow_slice_items};
ghost use Rattle.std.specs.BTreeMap.{IsOrdered};
ghost use Rattle.jname.specs.Versions.{Agrees, Differs, IsLiveIn};
ghost use Rattle.jname.specs.Directories.{content_at, highest_at};
ghost use Rattle.jname.specs.Entries.{entries_of};

use crate::NameFault;
use crate::apart::Apart;
use crate::directory::Directory;
use crate::name_map::NameMap;
use crate::versions::Content;
use crate::walk::{All, Of};
use flashbase::Part;
use jnode::Dirent;
use std::alloc::{AllocError, Global};
use std::borrow::CowSlice;
use std::collections::BTreeMap;
use std::marker::Model;

type DirectoriesByNumber<'a> = BTreeMap<u32, Apart<'a>>;

/// The entries of the directories of an image, by directory, name and version.
///
/// Every entry that was added is stored, with inode number 0 or not, since a clash is judged
/// against all of them. Contracts see the list of these entries; its order says nothing.
#[derive(Drop)]
pub struct Names<'a> {
    directories: DirectoriesByNumber<'a>,
    // Always empty: the names of a directory that has no entries.
    none: NameMap<'a>,
    alloc: Global,
}

impl<'a> Model for Names<'a> {
    ghost use Rattle.std.specs.Prelude.{◌≡◌, List, []};
    ghost use Rattle.std.specs.Ordering.{nat_cmp};
    ghost use Rattle.std.specs.BTreeMap.{IsOrdered};
    ghost use Rattle.jnode.specs.declared.node.Dirent.{Dirent};
    ghost use Rattle.jname.specs.NameMaps.{names_in};
    ghost use Rattle.jname.specs.Entries.{entries_of};

    ghost Value = { List Dirent };

    ghost view = { λ names. entries_of names.directories };

    ghost invariant = { λ names. IsOrdered nat_cmp names.directories × (names_in names.none ≡ []) };
}

impl<'a> Names<'a> {
    ghost use Rattle.std.specs.Prelude.{◌≡◌, [], IsErrOf, OnOk, OnErr};
    ghost use Rattle.jname.specs.Clash.{NoEntryClashesWith, SomeEntryClashesWith};
    ghost use Rattle.jname.specs.Live.{live, all_names, highest, names_of, Gains};

    /// No entries.
    pub fn new(alloc: Global) -> Names<'a>
        ensures { result ≡ [] }
    {
        Names {
            directories: BTreeMap::new(alloc),
            none: NameMap::new(alloc),
            alloc,
        }
    }

    /// Adds an entry. One that was added already changes nothing. O(log n) for n entries.
    ///
    /// `Clash`: an entry of the same directory, name and version, with other contents, was added
    /// before. After a fault the entries are those from before.
    pub fn add(&mut self, entry: &Dirent<'a>) -> Result<(), NameFault>
        ensures ok { OnOk result (Gains self.old self.new entry.now) }
        ensures alone { OnOk result (NoEntryClashesWith self.old entry.now) }
        ensures clash { result ≡ Err NameFault.Clash → SomeEntryClashesWith self.old entry.now }
        ensures err { OnErr result (self.new ≡ self.old) }
    {
        let name = name_of(self.alloc, &entry.name)?;
        let content = Content {
            ino: entry.ino,
            mctime: entry.mctime,
            kind: entry.kind,
        };
        add_entry(
            self.alloc,
            &mut self.directories,
            entry.pino,
            name,
            entry.version,
            content,
        )
    }

    /// The inode number that a name of a directory stands for. Takes O(log n) and no memory.
    pub fn get(&self, dir: u32, name: &[u8]) -> Option<u32>
        ensures { result ≡ live self.now (dir, name.now) }
    {
        live_of(&self.directories, dir, name)
    }

    /// The live names of a directory, each with its inode number, in byte order.
    pub fn of(&self, dir: u32) -> Of<'_, 'a>
        ensures { result ≡ names_of self.now dir }
    {
        match self.directories.get(&dir) {
            Some(apart) => Of::new(&apart.directory.names),
            None => Of::new(&self.none),
        }
    }

    /// All live names, each with its directory and inode number, in order of the directory's number
    /// and then in byte order.
    pub fn all(&self) -> All<'_, 'a>
        ensures { result ≡ all_names self.now }
    {
        All::new(&self.directories, &self.none)
    }

    /// The greatest version of a directory's entries, those of removed names included.
    pub fn highest(&self, dir: u32) -> Option<u32>
        ensures { result ≡ highest self.now dir }
    {
        highest_of(&self.directories, dir)
    }
}

/// The bytes of a name: borrowed, or where an image lacks some of them, a copy.
fn name_of<'a>(alloc: Global, name: &Part<'a>) -> Result<CowSlice<'a, u8>, AllocError>
    ensures { IfOk result (λ bytes. cow_slice_items bytes ≡ name.now) }
{
    let present = name.present();
    if present.len() == name.len() {
        return Ok(CowSlice::Borrowed(present));
    }
    let mut copy = Vec::with_capacity(alloc, name.len())?;
    name.put_onto(&mut copy);
    Ok(CowSlice::Owned(copy))
}

/// Holds a content in a directory, under a name, at a version.
fn add_entry<'a>(
    alloc: Global,
    directories: &mut DirectoriesByNumber<'a>,
    pino: u32,
    name: CowSlice<'a, u8>,
    version: u32,
    content: Content,
) -> Result<(), NameFault>
    ensures clash { result ≡ Err NameFault.Clash
        → Differs (content_at directories.old pino (cow_slice_items name.entry) version) content }
    ensures alone { OnOk result
        (Agrees (content_at directories.old pino (cow_slice_items name.entry) version) content) }
    ensures ok { OnOk result ((p : ℕ) (n : List ℕ) (v : ℕ)
        → content_at directories.new p n v ≡ (if pino == p
        && (bytes_eq (cow_slice_items name.entry) n && version == v) then Some content else
        content_at directories.old p n v)) }
    ensures err { OnErr result (entries_of directories.new ≡ entries_of directories.old) }
    ensures ordered { IsOrdered nat_cmp directories.new }
{
    if let Some(apart) = directories.get_mut(&pino) {
        return apart.add(alloc, name, version, content);
    }
    let directory = Directory::of_one(alloc, name, version, content)?;
    let apart = Apart::new(alloc, directory)?;
    directories.insert(pino, apart)?;
    Ok(())
}

/// The inode number at the highest version of a name.
fn live_of(directories: &DirectoriesByNumber<'_>, dir: u32, name: &[u8]) -> Option<u32>
    ensures { IsLiveIn (λ v. content_at directories.now dir name.now v) result }
{
    directories.get(&dir)?.directory.names.get(name)?.live()
}

/// The greatest version of a directory.
fn highest_of(directories: &DirectoriesByNumber<'_>, dir: u32) -> Option<u32>
    ensures { result ≡ highest_at directories.now dir }
{
    Some(directories.get(&dir)?.directory.highest)
}
