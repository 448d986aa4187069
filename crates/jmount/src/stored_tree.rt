//! A file system as it is stored, before it is known what a mounted image also keeps of it.

ghost use Rattle.std.specs.Prelude.{◌≡◌};
ghost use Rattle.jmount.specs.Tree as tree;
ghost use Rattle.jmount.specs.Shown.{objects_in};

use crate::shown;
use crate::stored::Stored;
use crate::walk::Objects;
use jname::{All, Names, Of};
use std::collections::BTreeMap;
use std::marker::Model;

/// The objects and the names of an image, and the next number that is free.
#[derive(Drop)]
pub struct StoredTree<'m, 'a> {
    objects: &'m BTreeMap<u32, Stored<'a>>,
    names: &'m Names<'a>,
    next: u64,
}

impl<'m, 'a> Model for StoredTree<'m, 'a> {
    ghost use Rattle.std.specs.Prelude.{ℕ, List};
    ghost use Rattle.std.specs.Coded.{coded_ℕ, coded_list};
    ghost use Rattle.std.specs.Ordering.{nat_cmp};
    ghost use Rattle.std.specs.BTreeMap.{IsOrdered};
    ghost use Rattle.jmount.specs.Tree.{State};
    ghost use Rattle.jmount.specs.Codes.{tree_code};
    ghost use Rattle.jmount.specs.Stored.{stored_state};

    ghost Value = { State };

    ghost coded = { tree_code (coded_list coded_ℕ) };

    ghost view = { λ t. stored_state t.objects.now t.names.now t.next };

    ghost invariant = { λ t. IsOrdered nat_cmp t.objects.now };
}

impl<'m, 'a> StoredTree<'m, 'a> {
    ghost use Rattle.std.specs.Ordering.{nat_cmp};
    ghost use Rattle.std.specs.BTreeMap.{IsOrdered};
    ghost use Rattle.jmount.specs.Stored.{stored_state};

    pub fn new(objects: &'m BTreeMap<u32, Stored<'a>>, names: &'m Names<'a>, next: u64) -> Self
        requires { IsOrdered nat_cmp objects.now }
        ensures { result ≡ stored_state objects.now names.now next }
    {
        StoredTree {
            objects,
            names,
            next,
        }
    }

    pub fn is_directory(&self, ino: u32) -> bool
        ensures { result ≡ tree.is_directory self.now ino }
    {
        self.objects
            .get(&ino)
            .is_some_and(|stored| shown::is_directory(stored.mode))
    }

    /// The names of a directory, each with the number that it stands for, in byte order.
    pub fn entries(&self, dir: u32) -> Of<'m, 'a>
        ensures { result ≡ tree.entries_in self.now dir }
    {
        self.names.of(dir)
    }

    /// All names, each with its directory's number and its own, in order of the directory's number
    /// and then in byte order.
    pub fn names(&self) -> All<'m, 'a>
        ensures { result ≡ tree.all_entries self.now }
    {
        self.names.all()
    }

    /// All objects, the root among them, each with its number, in ascending order of number.
    pub fn objects(&self) -> Objects<'m, 'a>
        ensures { result ≡ objects_in self.now }
    {
        Objects::new(self.objects)
    }
}
