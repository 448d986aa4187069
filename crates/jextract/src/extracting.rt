//! The tree of a mounted image, written into a folder of the host.

ghost use Rattle.std.specs.Prelude.{◌≡◌, false, true, if◌then◌else◌, map, IfErr, IfOk};
ghost use Rattle.std.specs.Prelude.{ℕ};
ghost use Rattle.std.specs.FinMap.{FinMap};
ghost use Rattle.jname.specs.Live.{key_cmp};
ghost use Rattle.jextract.specs.Extracts.{Extracts};
ghost use Rattle.jextract.specs.Outcomes.{FirstPaths, Make, root_alone};
ghost use Rattle.jextract.specs.PartsOf.{IsPart, part_of};
ghost use Rattle.jextract.specs.Parts.{is_in_part, is_on_way, is_way, keys_of, part_along, part_alone, with_names};
ghost use Rattle.jextract.specs.declared.fault.ExtractFault.TheVariants.{OutOfMemory};
ghost use Rattle.jmount.specs.Tree as tree;
ghost use Rattle.jextract.specs.Making.{firsts_of};
ghost use Rattle.jextract.specs.Walking.{Completes, Enters, Fills, ExtractionGoesUp, IsOnWay, Steps, Settles, VisitsKnown, no_totals, totals_up};
ghost use Rattle.flashbase.specs.Sinks.{change_of};

use crate::fault::ExtractFault;
use crate::folder::{Folder, FolderFault};
use crate::making::{MakeFault, complete, make};
use crate::notes::tell;
use crate::parts::Part;
use crate::totals::Totals;
use flashbase::Sink;
use jmount::{Kind, Mounted, ROOT};
use jname::{All, Of};
use std::alloc::Global;
use std::collections::BTreeMap;
use std::mem;

impl Totals {
    fn none() -> Totals
        ensures { result ≡ no_totals }
    {
        Totals {
            left_out: 0,
            lost_bits: 0,
        }
    }

    fn add_left_out(&mut self)
        ensures { self.new ≡ totals_up self.old 1 0 }
    {
        self.left_out = self.left_out.saturating_add(1);
    }

    /// Counts an object that lost a bit, if it did.
    fn add_lost(&mut self, lost: bool)
        ensures { self.new ≡ totals_up self.old 0 (if lost then 1 else 0) }
    {
        if lost {
            self.lost_bits = self.lost_bits.saturating_add(1);
        }
    }
}

/// Tells why a task was left out, if it was, and counts it. Answers whether it was done.
fn settle<N: Sink>(
    done: Result<bool, MakeFault>,
    path: &[&[u8]],
    totals: &mut Totals,
    notes: &mut N,
) -> Result<bool, ExtractFault>
    ensures { Settles done (map (λ name. name.now) path.now)
        (change_of N.Sink notes.old notes.new) totals.old totals.new result }
{
    match done {
        Ok(lost) => {
            totals.add_lost(lost);
            Ok(true)
        }
        Err(MakeFault::LeftOut(reason)) => {
            totals.add_left_out();
            match tell(notes, path, reason) {
                Ok(()) => Ok(false),
                Err(_) => Err(ExtractFault::Notes),
            }
        }
        Err(MakeFault::NoSpace) => Err(ExtractFault::NoSpace),
        Err(MakeFault::OutOfMemory) => Err(ExtractFault::OutOfMemory),
    }
}

/// Whether a directory is on a way.
fn is_on_way(way: &[(u32, &[u8])], dir: u32) -> bool
    ensures { result ≡ is_on_way (keys_of way.now) dir }
{
    way.iter().any(|key| key.0 == dir)
}

/// Whether a name of a directory is on a way.
fn is_way(way: &[(u32, &[u8])], dir: u32, name: &[u8]) -> bool
    ensures { result ≡ is_way (keys_of way.now) dir name.now }
{
    way.iter().any(|key| key.0 == dir && key.1 == name)
}

/// Whether a name of a directory is in the part along a way.
fn is_in_part(way: &[(u32, &[u8])], dir: u32, name: &[u8]) -> bool
    ensures { result ≡ is_in_part (keys_of way.now) dir name.now }
{
    !is_on_way(way, dir) || is_way(way, dir, name)
}

/// Whether this number is that of a directory.
pub(crate) fn is_directory(mounted: &Mounted<'_>, ino: u32) -> bool
    ensures { result ≡ tree.is_directory mounted.now.state ino }
{
    match mounted.object(ino) {
        Some(object) => object.kind == Kind::Directory,
        None => false,
    }
}

/// Makes the object that a path leads to. Answers whether it is a directory that was made.
fn visit<F: Folder, N: Sink>(
    alloc: Global,
    mounted: &Mounted<'_>,
    owners: bool,
    path: &[&[u8]],
    ino: u32,
    firsts: &mut BTreeMap<u32, String>,
    totals: &mut Totals,
    folder: &mut F,
    notes: &mut N,
) -> Result<bool, ExtractFault>
    // Whatever the names of directories are: a part of the tree has others. And whatever else was
    // made: that it is known of this object is enough.
    ensures visits { (names : FinMap key_cmp ℕ) (made : FirstPaths)
        → firsts_of firsts.old ino ≡ made ino
        → VisitsKnown mounted.now.state (with_names mounted.now.state names) owners made
        (firsts_of firsts.old, firsts_of firsts.new) (Make (map (λ name. name.now) path.now) ino) (
          record {
            made = F.made folder.old;
            failures = F.failures folder.old;
            told = N.taken notes.old;
            told_failures = N.failures notes.old;
            totals = totals.old;
          },
          record {
            made = F.made folder.new;
            failures = F.failures folder.new;
            told = N.taken notes.new;
            told_failures = N.failures notes.new;
            totals = totals.new;
          },
        ) result }
    ensures entered { IfOk result
        (λ entered. entered ≡ true → tree.is_directory mounted.now.state ino ≡ true) }
{
    let done = make(alloc, mounted, owners, path, ino, firsts, folder);
    let is_made = settle(done, path, totals, notes)?;
    Ok(is_made && is_directory(mounted, ino))
}

/// Completes the directory that a path leads to.
fn leave<F: Folder, N: Sink>(
    alloc: Global,
    mounted: &Mounted<'_>,
    owners: bool,
    path: &[&[u8]],
    ino: u32,
    totals: &mut Totals,
    folder: &mut F,
    notes: &mut N,
) -> Result<bool, ExtractFault>
    ensures { (names : FinMap key_cmp ℕ) → Completes (with_names mounted.now.state names) owners
        (map (λ name. name.now) path.now) ino
        (record {
          made = F.made folder.old;
          failures = F.failures folder.old;
          told = N.taken notes.old;
          told_failures = N.failures notes.old;
          totals = totals.old;
        })
        (record {
          made = F.made folder.new;
          failures = F.failures folder.new;
          told = N.taken notes.new;
          told_failures = N.failures notes.new;
          totals = totals.new;
        }) result }
{
    let done = complete(alloc, mounted, owners, path, ino, folder);
    settle(done, path, totals, notes)
}

/// A walk through a tree, a directory before what lies in it.
#[derive(Drop)]
struct Walk<'m, 'a> {
    /// The names that lead to the directory that is read.
    path: Vec<&'m [u8]>,
    /// Its number.
    ino: u32,
    /// What is left of it.
    left: Of<'m, 'a>,
    /// The directories above it, from the root on, and what is left of each.
    above: Vec<(u32, Of<'m, 'a>)>,
    /// The path at which each object was made first that has several names.
    firsts: BTreeMap<u32, String>,
    /// The names of the tree, of which as many are left as may still be read: none is read twice.
    unread: All<'m, 'a>,
    /// What is counted so far.
    totals: Totals,
}

impl<'m, 'a> Walk<'m, 'a> {
    /// Goes back to the directory above, if there is one.
    fn go_up(&mut self) -> bool
        ensures { ExtractionGoesUp self.old self.new result }
    {
        let Some((ino, left)) = self.above.pop() else {
            return false;
        };
        self.ino = ino;
        self.left = left;
        self.path.pop();
        true
    }

    /// Visits what the next name leads to, or leaves the directory where there is none. Answers
    /// whether the walk goes on.
    fn step<F: Folder, N: Sink>(
        &mut self,
        alloc: Global,
        mounted: &'m Mounted<'a>,
        way: &[(u32, &[u8])],
        owners: bool,
        folder: &mut F,
        notes: &mut N,
    ) -> Result<bool, ExtractFault>
        ensures { (made : FirstPaths) → IsOnWay mounted.now.state made self.old
            → Steps mounted.now.state (keys_of way.now) owners made self.old self.new (
              record {
                made = F.made folder.old;
                failures = F.failures folder.old;
                told = N.taken notes.old;
                told_failures = N.failures notes.old;
                totals = self.old.totals;
              },
              record {
                made = F.made folder.new;
                failures = F.failures folder.new;
                told = N.taken notes.new;
                told_failures = N.failures notes.new;
                totals = self.new.totals;
              },
            ) result }
    {
        let Some((name, ino)) = self.left.next() else {
            leave(
                alloc,
                mounted,
                owners,
                &self.path,
                self.ino,
                &mut self.totals,
                folder,
                notes,
            )?;
            return Ok(self.go_up());
        };
        let _ = self.unread.next();
        if !is_in_part(way, self.ino, name) {
            return Ok(true);
        }
        self.path.push(name)?;
        if visit(
            alloc,
            mounted,
            owners,
            &self.path,
            ino,
            &mut self.firsts,
            &mut self.totals,
            folder,
            notes,
        )? {
            self.enter(mounted, ino)?;
        } else {
            self.path.pop();
        }
        Ok(true)
    }

    /// Goes to the directory that the path leads to.
    fn enter(&mut self, mounted: &'m Mounted<'a>, ino: u32) -> Result<(), ExtractFault>
        ensures { Enters mounted.now.state ino self.old self.new result }
    {
        let left = mem::replace(&mut self.left, mounted.entries(ino));
        self.above.push((self.ino, left))?;
        self.ino = ino;
        Ok(())
    }
}

/// The root alone is made.
fn firsts_of_root(alloc: Global) -> Result<BTreeMap<u32, String>, ExtractFault>
    ensures ok { IfOk result (λ firsts. firsts_of firsts ≡ root_alone) }
    ensures err { IfErr result (λ fault. fault ≡ OutOfMemory) }
{
    let mut firsts = BTreeMap::new(alloc);
    firsts.insert(ROOT, String::new(alloc))?;
    Ok(firsts)
}

/// Makes the part of a mounted image along a way in a folder that was made.
fn fill<F: Folder, N: Sink>(
    alloc: Global,
    mounted: &Mounted<'_>,
    way: &[(u32, &[u8])],
    owners: bool,
    folder: &mut F,
    notes: &mut N,
) -> Result<Totals, ExtractFault>
    ensures { Fills (part_along (keys_of way.now) mounted.now.state) owners
        (record {
          made = F.made folder.old;
          failures = F.failures folder.old;
          told = N.taken notes.old;
          told_failures = N.failures notes.old;
          totals = no_totals;
        })
        (record {
          made = F.made folder.new;
          failures = F.failures folder.new;
          told = N.taken notes.new;
          told_failures = N.failures notes.new;
          totals = no_totals;
        }) result }
{
    let firsts = firsts_of_root(alloc)?;
    let mut walk = Walk {
        path: Vec::new(alloc),
        ino: ROOT,
        left: mounted.entries(ROOT),
        above: Vec::new(alloc),
        firsts,
        unread: mounted.names(),
        totals: Totals::none(),
    };
    while walk.step(alloc, mounted, way, owners, folder, notes)? {}
    Ok(walk.totals)
}

/// Makes one object that is no directory in a folder that was made, by a name of the folder.
fn fill_alone<F: Folder, N: Sink>(
    alloc: Global,
    mounted: &Mounted<'_>,
    name: &[u8],
    ino: u32,
    owners: bool,
    folder: &mut F,
    notes: &mut N,
) -> Result<Totals, ExtractFault>
    requires { tree.is_directory mounted.now.state ino ≡ false }
    ensures { Fills (part_alone name.now ino mounted.now.state) owners
        (record {
          made = F.made folder.old;
          failures = F.failures folder.old;
          told = N.taken notes.old;
          told_failures = N.failures notes.old;
          totals = no_totals;
        })
        (record {
          made = F.made folder.new;
          failures = F.failures folder.new;
          told = N.taken notes.new;
          told_failures = N.failures notes.new;
          totals = no_totals;
        }) result }
{
    let mut firsts = firsts_of_root(alloc)?;
    let mut totals = Totals::none();
    visit(
        alloc,
        mounted,
        owners,
        &[name],
        ino,
        &mut firsts,
        &mut totals,
        folder,
        notes,
    )?;
    leave(
        alloc,
        mounted,
        owners,
        &[],
        ROOT,
        &mut totals,
        folder,
        notes,
    )?;
    Ok(totals)
}

/// Makes a part of a mounted image in a folder that was made.
fn fill_part<F: Folder, N: Sink>(
    alloc: Global,
    mounted: &Mounted<'_>,
    part: &Part<'_>,
    owners: bool,
    folder: &mut F,
    notes: &mut N,
) -> Result<Totals, ExtractFault>
    requires { IsPart mounted.now.state part.now }
    ensures { Fills (part_of part.now mounted.now.state) owners
        (record {
          made = F.made folder.old;
          failures = F.failures folder.old;
          told = N.taken notes.old;
          told_failures = N.failures notes.old;
          totals = no_totals;
        })
        (record {
          made = F.made folder.new;
          failures = F.failures folder.new;
          told = N.taken notes.new;
          told_failures = N.failures notes.new;
          totals = no_totals;
        }) result }
{
    match part {
        Part::Along(way) => fill(alloc, mounted, way, owners, folder, notes),
        Part::Alone { name, ino } => {
            fill_alone(alloc, mounted, name, *ino, owners, folder, notes)
        }
    }
}

/// Makes the folder, and in it the tree of a mounted image: a directory before what lies in it, and
/// names in byte order. Answers how many objects were left out, each of which is told as a line of
/// the notes, and how many lost a set-id bit.
///
/// A directory gets its attributes after all that lies in it, and one that was made before is not
/// made again. A further name of a file or symlink is made as a link to the first. Where 4,096
/// bytes of a file are all zero, a hole is left. Owners are given only where `owners` asks for
/// them, and without them no set-id bit of a mode. What the host refuses is left out, with all
/// below it, and so are devices, FIFOs, sockets, names that lead nowhere, and names and targets
/// that no host takes. Takes memory for the way to an object and for a path for each object that
/// has several names, and for no file's bytes.
///
/// # Errors
/// `Folder`: the folder itself is refused, and nothing is done. `Notes`: the notes failed;
/// `NoSpace`: the host has no room left; `OutOfMemory`: out of memory; what was made so far stays.
pub fn extract<F: Folder, N: Sink>(
    alloc: Global,
    mounted: &Mounted<'_>,
    owners: bool,
    folder: &mut F,
    notes: &mut N,
) -> Result<Totals, ExtractFault>
    ensures { Extracts mounted.now.state owners
        (record {
          old = F.made folder.old;
          new = F.made folder.new;
          before = F.failures folder.old;
          now = F.failures folder.new;
        })
        (change_of N.Sink notes.old notes.new) result }
{
    match folder.make_directory("") {
        Ok(()) => fill(alloc, mounted, &[], owners, folder, notes),
        Err(FolderFault::Refused) => Err(ExtractFault::Folder),
        Err(FolderFault::NoSpace) => Err(ExtractFault::NoSpace),
        Err(FolderFault::OutOfMemory) => Err(ExtractFault::OutOfMemory),
    }
}

/// The same of a part of the tree: a directory with all that lies below it, at the path that it has
/// in the whole tree, by the directories on the way; or another object alone, by its last name.
pub fn extract_part<F: Folder, N: Sink>(
    alloc: Global,
    mounted: &Mounted<'_>,
    part: &Part<'_>,
    owners: bool,
    folder: &mut F,
    notes: &mut N,
) -> Result<Totals, ExtractFault>
    requires { IsPart mounted.now.state part.now }
    ensures { Extracts (part_of part.now mounted.now.state) owners
        (record {
          old = F.made folder.old;
          new = F.made folder.new;
          before = F.failures folder.old;
          now = F.failures folder.new;
        })
        (change_of N.Sink notes.old notes.new) result }
{
    match folder.make_directory("") {
        Ok(()) => fill_part(alloc, mounted, part, owners, folder, notes),
        Err(FolderFault::Refused) => Err(ExtractFault::Folder),
        Err(FolderFault::NoSpace) => Err(ExtractFault::NoSpace),
        Err(FolderFault::OutOfMemory) => Err(ExtractFault::OutOfMemory),
    }
}
