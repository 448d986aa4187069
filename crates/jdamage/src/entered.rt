//! By which name a walk from the root enters each directory first.

ghost use Rattle.std.specs.Prelude.{◌≡◌, ◌∷◌, ◌++◌, ℕ, List, [], IfOk, IfSome, IsFalse, IsTrue, None, OnOk};
ghost use Rattle.jdamage.specs.Entered as spec;
ghost use Rattle.jdamage.specs.Entered.{NameOf, entry_name};
ghost use Rattle.jdamage.specs.Entering.{HoldNames, ReadsOneName, names_to_read};
ghost use Rattle.jdamage.specs.Ways.{held_first, name_held};

use crate::firsts::{Firsts, Name, is_directory};
use jmount::{Mounted, ROOT};
use jname::Of;
use std::alloc::{AllocError, Global};
use std::collections::BTreeMap;
use std::mem;

/// Whether a walk that entered directories by these names enters what it meets.
fn is_unmet(mounted: &Mounted<'_>, names: &Firsts<'_>, ino: u32) -> bool
    ensures { (met : List NameOf) → HoldNames met names.now
        → result ≡ spec.is_unmet mounted.now.state met ino }
{
    is_directory(mounted, ino) && ino != ROOT && !names.contains_key(&ino)
}

/// A walk through the directories of a tree, what lies in one before what lies beside it.
#[derive(Drop)]
struct Walk<'m, 'a> {
    /// The directory that is read.
    dir: u32,
    /// What is left of it.
    left: Of<'m, 'a>,
    /// The directories above it, from the root on, and what is left of each.
    above: Vec<(u32, Of<'m, 'a>)>,
}

impl<'m, 'a> Walk<'m, 'a> {
    /// Goes back to the directory above, if there is one.
    fn go_up(&mut self) -> bool
        ensures up { IsTrue result
            → self.old.above.items ≡ self.new.above.items ++ (self.new.dir, self.new.left) ∷ [] }
        ensures end { IsFalse result → (self.old.above.items ≡ [])
            × (self.new.above.items ≡ []) × (self.new.left ≡ self.old.left) }
    {
        let Some((dir, left)) = self.above.pop() else {
            return false;
        };
        self.dir = dir;
        self.left = left;
        true
    }

    /// The next name.
    fn next(&mut self) -> Option<Name<'m>>
        ensures some { IfSome result
            (λ name. names_to_read self.old ≡ name_held name ∷ names_to_read self.new) }
        ensures none { result ≡ None
            → (names_to_read self.old ≡ []) × (names_to_read self.new ≡ []) }
    {
        let mut is_open = true;
        while is_open {
            if let Some((name, ino)) = self.left.next() {
                return Some((self.dir, name, ino));
            }
            is_open = self.go_up();
        }
        None
    }

    /// Goes to a directory.
    fn enter(&mut self, mounted: &'m Mounted<'a>, dir: u32) -> Result<(), AllocError>
        ensures { OnOk result (names_to_read self.new
            ≡ spec.directory_names mounted.now.state dir ++ names_to_read self.old) }
    {
        let left = mem::replace(&mut self.left, mounted.entries(dir));
        self.above.push((self.dir, left))?;
        self.dir = dir;
        Ok(())
    }

    /// Reads the next name, and enters what it leads to, if that is a directory that is met first.
    fn step(&mut self, mounted: &'m Mounted<'a>, names: &mut Firsts<'m>) -> Result<(), AllocError>
        ensures { OnOk result ((met : List NameOf) → HoldNames met names.old
            → ReadsOneName mounted.now.state met self.old names.new self.new) }
    {
        let Some(name) = self.next() else {
            return Ok(());
        };
        if !is_unmet(mounted, names, name.2) {
            return Ok(());
        }
        names.insert(name.2, name)?;
        self.enter(mounted, name.2)
    }
}

/// The directories that a walk from the root enters, each with the name by which it does so. O(n
/// log n) for n names; takes memory for these directories.
pub(crate) fn entered_names<'m>(
    alloc: Global,
    mounted: &'m Mounted<'_>,
) -> Result<Firsts<'m>, AllocError>
    ensures { IfOk result
        (λ names. (i : ℕ) → held_first names i ≡ entry_name mounted.now.state i) }
{
    let mut names = BTreeMap::new(alloc);
    let mut walk = Walk {
        dir: ROOT,
        left: mounted.entries(ROOT),
        above: Vec::new(alloc),
    };
    for _name in mounted.names() {
        walk.step(mounted, &mut names)?;
    }
    Ok(names)
}
