//! What is found out of all names: the directories of first names, and which objects have further
//! names.

ghost use Rattle.std.specs.Prelude.{◌≡◌, ◌≢◌, ◌==◌, ℕ, true, Some, None, Contains, IfOk, is_some, option_map, if◌then◌else◌};
ghost use Rattle.std.specs.Option.{option_or};
ghost use Rattle.std.specs.Ordering.{nat_cmp};
ghost use Rattle.std.specs.BTreeMap.{IsOrdered, get};
ghost use Rattle.jnode.specs.declared.node.Dirent.{Dirent};
ghost use Rattle.jname.specs.Live.{all_names};
ghost use Rattle.jmount.specs.Storing.{as_made};
ghost use Rattle.jmount.specs.Kept.{HasNoDirectories, HasDirectories, HasSeveralIn, directory_kept_at, directory_kept};

use crate::stored::Stored;
use jname::Names;
use std::alloc::{AllocError, Global};
use std::collections::{BTreeMap, BTreeSet};

/// Objects by their numbers, and the numbers of those that several names stand for.
#[derive(Drop)]
pub struct NamedObjects<'a> {
    pub objects: BTreeMap<u32, Stored<'a>>,
    pub several: BTreeSet<u32>,
}

/// Keeps with each object the directory of the first name that stands for it, and the numbers of
/// those that further names stand for. O(n log n) for n names and objects; takes memory for these
/// numbers.
pub fn keep_directories<'a>(
    alloc: Global,
    objects: BTreeMap<u32, Stored<'a>>,
    names: &Names<'_>,
) -> Result<NamedObjects<'a>, AllocError>
    requires ordered { IsOrdered nat_cmp objects }
    requires none { HasNoDirectories objects }
    requires parents { (entry : Dirent) → Contains names.now entry → entry.pino ≢ 0 }
    ensures same { IfOk result (λ named. (i : ℕ) → option_map as_made (get nat_cmp named.objects i)
        ≡ option_map as_made (get nat_cmp objects.entry i)) }
    ensures directories { IfOk result
        (λ named. HasDirectories named.objects (all_names names.now)) }
    ensures several { IfOk result
        (λ named. HasSeveralIn named.objects (all_names names.now) named.several) }
    ensures ordered { IfOk result (λ named. IsOrdered nat_cmp named.objects) }
{
    let mut objects = objects;
    let mut several = BTreeSet::new(alloc);
    for (dir, _, ino) in names.all() {
        if keep_in(&mut objects, ino, dir) {
            several.insert(ino)?;
        }
    }
    Ok(NamedObjects { objects, several })
}

/// Keeps with the object of a number, where there is one, the directory of a name, where none was
/// before it. Answers whether one was.
fn keep_in(objects: &mut BTreeMap<u32, Stored<'_>>, ino: u32, dir: u32) -> bool
    requires { dir ≢ 0 }
    ensures same { (i : ℕ) → option_map as_made (get nat_cmp objects.new i)
        ≡ option_map as_made (get nat_cmp objects.old i) }
    ensures directories { (i : ℕ) → is_some (get nat_cmp objects.old i) ≡ true
        → directory_kept_at objects.new i ≡ option_or (directory_kept_at objects.old i)
        (if ino == i then Some dir else None) }
    ensures again { result ≡ is_some (directory_kept_at objects.old ino) }
    ensures ordered { IsOrdered nat_cmp objects.new }
{
    match objects.get_mut(&ino) {
        Some(stored) => keep(stored, dir),
        None => false,
    }
}

/// Keeps a directory, where none was kept before. Answers whether one was.
fn keep(stored: &mut Stored<'_>, dir: u32) -> bool
    requires { dir ≢ 0 }
    ensures same { as_made stored.new ≡ as_made stored.old }
    ensures directory { directory_kept stored.new
        ≡ option_or (directory_kept stored.old) (Some dir) }
    ensures again { result ≡ is_some (directory_kept stored.old) }
{
    if stored.directory != 0 {
        return true;
    }
    stored.directory = dir;
    false
}

/// The directory that is kept with an object.
pub fn directory_kept(stored: &Stored<'_>) -> Option<u32>
    ensures { result ≡ directory_kept stored.now }
{
    match stored.directory {
        0 => None,
        dir => Some(dir),
    }
}
