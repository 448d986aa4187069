//! A mounted image.

ghost use Rattle.std.specs.Prelude.{◌≡◌, ◌≢◌, ℕ, ◌-◌, ◌<◌, ◌≤◌, ◌++◌, true, not, Decides, IsOk, IfOk, map, max, option_map, length, min, slice_index, take, drop};
ghost use Rattle.flashbase.specs.Sinks.{PutsTo};
ghost use Rattle.jmount.specs.Tree as tree;
ghost use Rattle.jmount.specs.Find as walk;
ghost use Rattle.jmount.specs.Shape.{HasOneName, HasShape};
ghost use Rattle.jmount.specs.Shown.{shown, objects_in, readable, top_at};

use crate::directories::{NamedObjects, directory_kept};
use crate::fault::FindFault;
use crate::object::Object;
use crate::path;
use crate::read::{put_stored, read_stored, zeros_end_stored};
use crate::shape::has_shape;
use crate::shown::shown;
use crate::stored::Stored;
use crate::stored_tree::StoredTree;
use crate::walk::Objects;
use flashbase::{DeviceFault, Sink};
use jname::{All, Names, Of};
use jscan::Finding;
use std::alloc::{AllocError, Global};
use std::collections::{BTreeMap, BTreeSet};
use std::marker::Model;

/// The root's number.
pub const ROOT: u32 = 1;

/// A mounted image: its bytes, and the file system that its nodes make.
#[derive(Drop)]
pub struct Mounted<'a> {
    image: &'a [u8],
    objects: BTreeMap<u32, Stored<'a>>,
    several: BTreeSet<u32>,
    names: Names<'a>,
    next: u64,
    has_shape: bool,
    findings: Vec<Finding>,
    read_only: bool,
}

impl<'a> Model for Mounted<'a> {
    ghost use Rattle.jmount.specs.Mount.{Mount};
    ghost use Rattle.jmount.specs.Codes.{mount_code};
    ghost use Rattle.jmount.specs.Stored.{stored_state, stored_tops};
    ghost use Rattle.jmount.specs.Kept.{IsKept};

    ghost Value = { Mount };

    ghost coded = { mount_code };

    ghost view = { λ m. record {
      image = m.image.now;
      state = stored_state m.objects m.names m.next;
      tops = stored_tops m.objects m.names;
      findings = m.findings.items;
      read_only = m.read_only;
    } };

    ghost invariant = { λ m. IsKept m.objects m.several m.names m.next m.has_shape };
}

impl<'a> Mounted<'a> {
    ghost use Rattle.std.specs.Ordering.{nat_cmp};
    ghost use Rattle.std.specs.BTreeMap.{IsOrdered};
    ghost use Rattle.jname.specs.Live.{all_names};
    ghost use Rattle.jmount.specs.Stored.{stored_state, stored_tops};
    ghost use Rattle.jmount.specs.Kept.{HasDirectories, HasSeveralIn};

    /// A mounted image of its parts. What is found out of them takes memory for the directories,
    /// and gives it back.
    pub(crate) fn new(
        alloc: Global,
        image: &'a [u8],
        named: NamedObjects<'a>,
        names: Names<'a>,
        next: u64,
        findings: Vec<Finding>,
        read_only: bool,
    ) -> Result<Mounted<'a>, AllocError>
        requires ordered { IsOrdered nat_cmp named.objects }
        requires directories { HasDirectories named.objects (all_names names) }
        requires several { HasSeveralIn named.objects (all_names names) named.several }
        ensures { IfOk result (λ mounted. mounted ≡ record {
          image = image.now;
          state = stored_state named.entry.objects names.entry next;
          tops = stored_tops named.entry.objects names.entry;
          findings = findings.items;
          read_only = read_only;
        }) }
    {
        let NamedObjects { objects, several } = named;
        let has_shape = has_shape(alloc, &StoredTree::new(&objects, &names, next), &several)?;
        Ok(Mounted {
            image,
            objects,
            several,
            names,
            next,
            has_shape,
            findings,
            read_only,
        })
    }

    /// The file system alone.
    fn tree(&self) -> StoredTree<'_, 'a>
        ensures { result ≡ self.now.state }
    {
        StoredTree::new(&self.objects, &self.names, self.next)
    }

    /// The bytes that were mounted.
    pub fn image(&self) -> &'a [u8]
        ensures { result.now ≡ self.now.image }
    {
        let Mounted { image, .. } = self;
        image
    }

    /// What was found beside the nodes, in order of address.
    pub fn findings(&self) -> &[Finding]
        ensures { result.now ≡ self.now.findings }
    {
        &self.findings
    }

    /// Whether a node says that the image may not be written.
    pub fn read_only(&self) -> bool
        ensures { result ≡ self.now.read_only }
    {
        self.read_only
    }

    /// The object of a number.
    pub fn object(&self, ino: u32) -> Option<Object>
        ensures { result ≡ option_map shown (tree.object self.now.state ino) }
    {
        self.objects.get(&ino).map(shown)
    }

    /// The number of the object that a path names: `/` the root, else `/` before each name.
    ///
    /// The whole text is judged first. Symlinks are not followed. Takes O(log n) a name and no
    /// memory.
    ///
    /// # Errors
    /// `BadPath`: the text is no path: it does not begin with `/`, or a name in it is empty, `.` or
    /// `..`, or has a zero byte. Else the fault of the first name that has one. `NotDirectory`:
    /// what is before the name is no directory. `NotFound`: the name stands for nothing there, or
    /// for an object that is missing.
    pub fn find(&self, text: &[u8]) -> Result<u32, FindFault>
        ensures { result ≡ walk.find self.now.state text.now }
    {
        let names = path::after_slash(text).ok_or(FindFault::BadPath)?;
        if names.is_empty() {
            return Ok(ROOT);
        }
        self.walk(names)
    }

    /// From the root, name by name, up to the first fault.
    fn walk(&self, names: &[u8]) -> Result<u32, FindFault>
        ensures { result ≡ walk.walk self.now.state (walk.parts names.now) (Ok 1) }
    {
        let mut here = ROOT;
        for name in names.split(|b| *b == b'/') {
            here = self.step(here, name)?;
        }
        Ok(here)
    }

    /// From an object to the one that a name stands for there.
    fn step(&self, here: u32, name: &[u8]) -> Result<u32, FindFault>
        ensures { result ≡ walk.step self.now.state here name.now }
    {
        if !self.is_directory(here) {
            return Err(FindFault::NotDirectory);
        }
        match self.named(here, name) {
            Some(ino) if self.is_there(ino) => Ok(ino),
            _ => Err(FindFault::NotFound),
        }
    }

    pub(crate) fn is_directory(&self, ino: u32) -> bool
        ensures { result ≡ tree.is_directory self.now.state ino }
    {
        self.tree().is_directory(ino)
    }

    fn is_there(&self, ino: u32) -> bool
        ensures { result ≡ tree.is_there self.now.state ino }
    {
        self.objects.contains_key(&ino)
    }

    fn named(&self, dir: u32, name: &[u8]) -> Option<u32>
        ensures { result ≡ tree.named self.now.state dir name.now }
    {
        self.names.get(dir, name)
    }

    /// The names of a directory, each with the number that it stands for, in byte order.
    pub fn entries(&self, dir: u32) -> Of<'_, 'a>
        ensures { result ≡ tree.entries_in self.now.state dir }
    {
        self.tree().entries(dir)
    }

    /// All names, each with its directory's number and its own, in order of the directory's number
    /// and then in byte order.
    pub fn names(&self) -> All<'_, 'a>
        ensures { result ≡ tree.all_entries self.now.state }
    {
        self.tree().names()
    }

    /// The directory of the first name, in order of the directory's number and then in byte order,
    /// that stands for a number whose object is there. It was found out at the mount: takes O(log
    /// n) and no memory.
    pub fn first_directory(&self, ino: u32) -> Option<u32>
        ensures { result ≡ tree.first_directory self.now.state ino }
    {
        directory_kept(self.objects.get(&ino)?)
    }

    /// Whether several names stand for the number of an object that is there. It was found out at
    /// the mount: takes O(log n) and no memory.
    pub fn has_several_names(&self, ino: u32) -> bool
        ensures { tree.is_there self.now.state ino ≡ true
            → Decides (not result) (HasOneName self.now.state ino) }
    {
        self.several.contains(&ino)
    }

    /// All objects, the root among them, each with its number, in ascending order of number.
    pub fn objects(&self) -> Objects<'_, 'a>
        ensures { result ≡ objects_in self.now.state }
    {
        self.tree().objects()
    }

    /// The names whose objects are missing, each with its directory's number and its own, in order
    /// of the directory's number and then in byte order. Takes memory for the answer alone.
    ///
    /// # Errors
    /// Out of memory.
    pub fn dangling(&self, alloc: Global) -> Result<Vec<(u32, &[u8], u32)>, AllocError>
        ensures { IfOk result
            (λ names. map (λ n. (n.0, n.1.now, n.2)) names.items ≡ tree.dangling self.now.state) }
    {
        self.names()
            .filter(|(_, _, ino)| !self.is_there(*ino))
            .collect(alloc)
    }

    /// Whether the tree has its shape: no directory but the root has two names, and none is reached
    /// from itself by names of directories. It was found out at the mount, and takes no memory.
    pub fn has_shape(&self) -> bool
        ensures { Decides result (HasShape self.now.state) }
    {
        self.has_shape
    }

    /// The same, as a call that may want memory. It never does: this was found out at the mount.
    ///
    /// # Errors
    /// None comes.
    pub fn shape(&self) -> Result<bool, AllocError>
        ensures found { IsOk result }
        ensures shape { IfOk result (λ has. Decides has (HasShape self.now.state)) }
    {
        Ok(self.has_shape())
    }

    /// Reads the bytes of a regular file or a symlink from an offset on: as many as the slice and
    /// the size allow, at the front of the slice. Answers how many; 0 for what is neither of the
    /// two. Takes no memory.
    pub fn read_at(&self, ino: u32, offset: u64, out: &mut [u8]) -> usize
        ensures count { result
            ≡ min (length out.old) (length (readable self.now.state ino) - offset) }
        ensures bytes { out.new
            ≡ take result (drop offset (readable self.now.state ino)) ++ drop result out.old }
    {
        match self.objects.get(&ino) {
            Some(stored) => read_stored(stored, offset, out),
            None => 0,
        }
    }

    /// From an offset on, where zeros of a regular file or a symlink end that are found at once: a
    /// hole, a ZERO node's zeros, or else zeros among the next 64 bytes of a node. More zeros may
    /// come next. It is the offset itself only if the byte there is no zero, or at the end. Who
    /// passes over these zeros reads only what nodes have.
    pub fn hole_end(&self, ino: u32, offset: u64) -> u64
        ensures from { offset ≤ result }
        ensures within { result ≤ max offset (length (readable self.now.state ino)) }
        ensures zeros { (i : ℕ) → offset ≤ i → i < result
            → slice_index (readable self.now.state ino) i ≡ 0 }
        ensures stops { result ≡ offset → offset < length (readable self.now.state ino)
            → slice_index (readable self.now.state ino) offset ≢ 0 }
    {
        match self.objects.get(&ino) {
            Some(stored) => zeros_end_stored(stored, offset),
            None => offset,
        }
    }

    /// Puts all bytes of a regular file or a symlink, and none of what is neither of the two. Takes
    /// no memory.
    ///
    /// # Errors
    /// The sink failed. A beginning of the bytes went out.
    pub fn put_bytes<T: Sink>(&self, ino: u32, sink: &mut T) -> Result<(), DeviceFault>
        ensures { PutsTo T.Sink sink.old sink.new (readable self.now.state ino) result }
    {
        match self.objects.get(&ino) {
            Some(stored) => put_stored(stored, sink),
            None => Ok(()),
        }
    }

    /// The greatest version of a number, over its inode nodes and the entries of its directory; 0
    /// where there is none.
    pub fn top(&self, ino: u32) -> u32
        ensures { result ≡ top_at self.now.tops ino }
    {
        let own = self.objects.get(&ino).map_or(0, |stored| stored.version);
        own.max(self.names.highest(ino).unwrap_or(0))
    }

    /// One more than the greatest number that a node names, the root's among them.
    pub fn next(&self) -> u64
        ensures { result ≡ self.now.state.next }
    {
        self.next
    }
}
