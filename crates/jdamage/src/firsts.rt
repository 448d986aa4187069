//! The first names of directories.

ghost use Rattle.std.specs.Prelude.{◌≡◌, ℕ, true, IfOk, OnOk, option_map};
ghost use Rattle.std.specs.BTreeSet.{contains};
ghost use Rattle.std.specs.Ordering.{nat_cmp};
ghost use Rattle.jmount.specs.Tree as tree;
ghost use Rattle.jdamage.specs.Ways.{AreFirsts, first_if, first_name, held_first, name_held, or_else};

use jmount::{Kind, Mounted};
use std::alloc::{AllocError, Global};
use std::collections::{BTreeMap, BTreeSet};

/// A name: its directory's number, its bytes, and the number that it stands for.
pub(crate) type Name<'m> = (u32, &'m [u8], u32);

/// First names of directories by the number that they stand for.
pub(crate) type Firsts<'m> = BTreeMap<u32, Name<'m>>;

/// Whether this number is that of a directory.
pub(crate) fn is_directory(mounted: &Mounted<'_>, ino: u32) -> bool
    ensures { result ≡ tree.is_directory mounted.now.state ino }
{
    match mounted.object(ino) {
        Some(object) => object.kind == Kind::Directory,
        None => false,
    }
}

/// Keeps a name that is the first of one of these directories.
fn note_first<'m>(
    dirs: &BTreeSet<u32>,
    firsts: &mut Firsts<'m>,
    name: Name<'m>,
) -> Result<(), AllocError>
    ensures { OnOk result ((i : ℕ) → contains nat_cmp dirs.now i ≡ true
        → held_first firsts.new i ≡ or_else (held_first firsts.old i) (first_if i name.entry)) }
{
    if !dirs.contains(&name.2) || firsts.contains_key(&name.2) {
        return Ok(());
    }
    firsts.insert(name.2, name)?;
    Ok(())
}

/// The first names of these directories. O(n log n) for n names; takes memory for these
/// directories.
pub(crate) fn firsts_of<'m>(
    alloc: Global,
    mounted: &'m Mounted<'_>,
    dirs: &BTreeSet<u32>,
) -> Result<Firsts<'m>, AllocError>
    ensures { IfOk result (λ firsts. AreFirsts mounted.now.state dirs.now firsts) }
{
    let mut firsts = BTreeMap::new(alloc);
    for name in mounted.names() {
        note_first(dirs, &mut firsts, name)?;
    }
    Ok(firsts)
}

/// The first name that stands for a number. Walks through all names.
pub(crate) fn find_name<'m>(mounted: &'m Mounted<'_>, ino: u32) -> Option<Name<'m>>
    ensures { option_map name_held result ≡ first_name mounted.now.state ino }
{
    mounted.names().find(|name| name.2 == ino)
}
