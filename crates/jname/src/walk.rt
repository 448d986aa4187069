//! Walks over the live names.

ghost use Rattle.std.specs.Prelude.{◌≡◌, ℕ, List};

use crate::apart::Apart;
use crate::name_map::{NameIter, NameMap};
use std::collections::BTreeMap;
use std::collections::btree_map::Iter;
use std::marker::Model;

/// The live names of a directory, each with its inode number, in byte order.
#[derive(Drop)]
pub struct Of<'n, 'a> {
    left: NameIter<'n, 'a>,
}

impl<'n, 'a> Model for Of<'n, 'a> {
    ghost use Rattle.std.specs.Prelude.{ℕ, List};
    ghost use Rattle.jname.specs.NameMaps.{names_left};
    ghost use Rattle.jname.specs.Walk.{names_under};

    ghost Value = { List (List ℕ × ℕ) };

    ghost view = { λ of. names_under (names_left of.left) };
}

impl<'n, 'a> Of<'n, 'a> {
    ghost use Rattle.std.specs.Prelude.{◌≡◌};
    ghost use Rattle.jname.specs.NameMaps.{names_in};
    ghost use Rattle.jname.specs.Walk.{names_under};

    pub(crate) fn new(names: &'n NameMap<'a>) -> Self
        ensures { result ≡ names_under (names_in names.now) }
    {
        Of { left: names.iter() }
    }
}

impl<'n, 'a> Iterator for Of<'n, 'a> {
    type Item = (&'n [u8], u32);

    ghost use Rattle.std.specs.Iterator.{YieldsFirstBy, item_count};

    ghost next_gives = { YieldsFirstBy (λ x. (x.0.now, x.1)) (λ rest. rest) };

    ghost remaining = { item_count (λ rest. rest) };

    fn next(&mut self) -> Option<(&'n [u8], u32)> {
        while let Some((name, versions)) = self.left.next() {
            if let Some(ino) = versions.live() {
                return Some((name.as_slice(), ino));
            }
        }
        None
    }
}

/// The live names of all directories, each with its directory and inode number, in order of the
/// directory's number and then in byte order.
#[derive(Drop)]
pub struct All<'n, 'a> {
    directories: Iter<'n, u32, Apart<'a>>,
    pino: u32,
    names: Of<'n, 'a>,
}

impl<'n, 'a> Model for All<'n, 'a> {
    ghost use Rattle.std.specs.Prelude.{ℕ, List, ◌++◌, map};
    ghost use Rattle.jname.specs.Walk.{with_parent, names_within};

    ghost Value = { List (ℕ × List ℕ × ℕ) };

    ghost view = { λ all. map (with_parent all.pino) all.names ++ names_within all.directories };
}

impl<'n, 'a> All<'n, 'a> {
    ghost use Rattle.std.specs.Prelude.{◌≡◌, []};
    ghost use Rattle.jname.specs.Walk.{names_under, names_within};
    ghost use Rattle.jname.specs.NameMaps.{names_in};

    /// The names of these directories; `none` is a directory without names.
    pub(crate) fn new(directories: &'n BTreeMap<u32, Apart<'a>>, none: &'n NameMap<'a>) -> Self
        requires { names_in none.now ≡ [] }
        ensures { result ≡ names_within directories.now.entries }
    {
        All {
            directories: directories.iter(),
            pino: 0,
            names: Of::new(none),
        }
    }
}

impl<'n, 'a> Iterator for All<'n, 'a> {
    type Item = (u32, &'n [u8], u32);

    ghost use Rattle.std.specs.Iterator.{YieldsFirstBy, item_count};

    ghost next_gives = { YieldsFirstBy (λ x. (x.0, x.1.now, x.2)) (λ rest. rest) };

    ghost remaining = { item_count (λ rest. rest) };

    fn next(&mut self) -> Option<(u32, &'n [u8], u32)> {
        loop {
            if let Some((name, ino)) = self.names.next() {
                return Some((self.pino, name, ino));
            }
            let (pino, apart) = self.directories.next()?;
            self.pino = *pino;
            self.names = Of::new(&apart.directory.names);
        }
    }
}
