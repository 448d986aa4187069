//! The ways up from directories to the root.

ghost use Rattle.std.specs.Prelude.{◌≡◌, ◌∷◌, ◌^◌, ◌<◌, ◌≤◌, ℕ, List, [], true, None, Some, IfOk, IfSome, IsFalse, IsTrue, length, option_map, reverse, vec_capacity};
ghost use Rattle.jmount.specs.Shape.{HasShape};
ghost use Rattle.jdamage.specs.Ways.{AreNamesUp, LeadNowhere, LeadsUp, depth, leads_to, name_held, name_up, names_held, path_below, path_length, steps_at_most};

use crate::entered::entered_names;
use crate::firsts::{Firsts, Name, find_name, firsts_of, is_directory};
use crate::nowhere::nowhere_of;
use jmount::{Mounted, ROOT};
use std::alloc::{AllocError, Global};
use std::collections::BTreeSet;

/// So many steps lead up to the root at most.
fn most_steps(mounted: &Mounted<'_>) -> u64
    ensures { result ≡ steps_at_most mounted.now.state }
{
    let mut count = 0u64;
    for _name in mounted.names() {
        count = (count + 1).min(1 << 32);
    }
    count + 1
}

/// The ways up from the directories of which a path may be told.
#[derive(Drop)]
pub struct WaysUp<'m, 'a> {
    pub mounted: &'m Mounted<'a>,
    /// Whether `names` has all directories that a walk from the root enters.
    walked: bool,
    /// Directories on the ways, where it has these alone.
    up: BTreeSet<u32>,
    /// The names by which the ways go up.
    names: Firsts<'m>,
    nowhere: BTreeSet<u32>,
    steps: u64,
    ghost counted: { steps ≡ steps_at_most mounted.now.state },
    ghost names_are: { AreNamesUp mounted.now.state walked up names },
    ghost leads: { LeadsUp mounted.now.state (name_up mounted.now.state walked) },
    ghost nowhere_is: { LeadNowhere mounted.now.state (name_up mounted.now.state walked) nowhere },
}

/// The ways up by first names, where no directory has two.
fn by_first_names<'m, 'a>(
    alloc: Global,
    mounted: &'m Mounted<'a>,
    dirs: &BTreeSet<u32>,
) -> Result<WaysUp<'m, 'a>, AllocError>
    requires { HasShape mounted.now.state }
    ensures { IfOk result (λ ways. ways.mounted.now ≡ mounted.now) }
{
    let mut up = BTreeSet::new(alloc);
    let nowhere = nowhere_of(alloc, mounted, dirs, &mut up)?;
    let names = firsts_of(alloc, mounted, &up)?;
    let steps = most_steps(mounted);
    Ok(WaysUp {
        mounted,
        walked: false,
        up,
        names,
        nowhere,
        steps,
    })
}

/// The ways up by the names by which a walk from the root enters directories.
fn by_walk<'m, 'a>(alloc: Global, mounted: &'m Mounted<'a>) -> Result<WaysUp<'m, 'a>, AllocError>
    ensures { IfOk result (λ ways. ways.mounted.now ≡ mounted.now) }
{
    let names = entered_names(alloc, mounted)?;
    let steps = most_steps(mounted);
    let up = BTreeSet::new(alloc);
    let nowhere = BTreeSet::new(alloc);
    Ok(WaysUp {
        mounted,
        walked: true,
        up,
        names,
        nowhere,
        steps,
    })
}

impl<'m, 'a> WaysUp<'m, 'a> {
    /// The ways up from these directories, in O(n log n) for n names. Takes memory for the
    /// directories on them; in a tree that has not its shape, for all that a walk from the root
    /// enters.
    ///
    /// # Errors
    /// Out of memory.
    pub fn new(
        alloc: Global,
        mounted: &'m Mounted<'a>,
        dirs: &BTreeSet<u32>,
    ) -> Result<WaysUp<'m, 'a>, AllocError>
        ensures { IfOk result (λ ways. ways.mounted.now ≡ mounted.now) }
    {
        if mounted.has_shape() {
            return by_first_names(alloc, mounted, dirs);
        }
        by_walk(alloc, mounted)
    }

    /// The name by which the way goes up from a directory. It is kept for the directories on the
    /// ways up; for any other directory, all names are searched.
    fn name_up(&self, dir: u32) -> Option<Name<'m>>
        ensures { option_map name_held result
            ≡ name_up self.now.mounted.now.state self.now.walked dir }
    {
        if self.walked || self.up.contains(&dir) {
            return self.names.get(&dir).copied();
        }
        find_name(self.mounted, dir)
    }

    /// Whether it is known of a directory that it leads nowhere.
    fn is_nowhere(&self, dir: u32) -> bool
        ensures { result ≡ true → (names : List (List ℕ))
            → path_below self.now.mounted.now.state dir names ≡ None }
    {
        self.nowhere.contains(&dir)
    }

    /// How many names the path of a directory has, if a way leads there.
    fn way_len(&self, dir: u32) -> Option<u64>
        ensures way { result
            ≡ option_map (λ path. length path) (path_below self.now.mounted.now.state dir []) }
        ensures few { IfSome result (λ n. n ≤ 2 ^ 32) }
    {
        if self.is_nowhere(dir) {
            return None;
        }
        let mut left = self.steps;
        let mut here = dir;
        while left > 0 {
            if !is_directory(self.mounted, here) {
                return None;
            }
            if here == ROOT {
                return Some(self.steps - left);
            }
            let Some((above, _, _)) = self.name_up(here) else {
                return None;
            };
            here = above;
            left -= 1;
        }
        None
    }

    /// Whether a way leads to a directory.
    pub(crate) fn leads_to(&self, dir: u32) -> bool
        ensures { result ≡ leads_to self.now.mounted.now.state dir }
    {
        self.way_len(dir).is_some()
    }

    /// How many names the path of a directory has; 0 where no way leads there.
    pub fn depth(&self, dir: u32) -> u64
        ensures depth { result ≡ depth self.now.mounted.now.state dir }
        ensures few { result ≤ 2 ^ 32 }
    {
        self.way_len(dir).unwrap_or(0)
    }

    /// Puts the names from the root to a directory in the place of these. Answers whether a way
    /// leads there.
    pub(crate) fn put_directory(&self, dir: u32, path: &mut Vec<&'m [u8]>) -> bool
        requires { depth self.now.mounted.now.state dir < vec_capacity path.old }
        ensures found { IsTrue result
            → path_below self.now.mounted.now.state dir [] ≡ Some (names_held path.new) }
        ensures none { IsFalse result → path_below self.now.mounted.now.state dir [] ≡ None }
        ensures capacity { vec_capacity path.old ≤ vec_capacity path.new }
    {
        path.clear();
        climb(self, dir, path)
    }

    /// The same, and a name behind them.
    pub fn put_name(&self, dir: u32, name: &'m [u8], path: &mut Vec<&'m [u8]>) -> bool
        requires { depth self.now.mounted.now.state dir < vec_capacity path.old }
        ensures found { IsTrue result → path_below self.now.mounted.now.state dir (name.now ∷ [])
            ≡ Some (names_held path.new) }
        ensures none { IsFalse result
            → path_below self.now.mounted.now.state dir (name.now ∷ []) ≡ None }
        ensures capacity { vec_capacity path.old ≤ vec_capacity path.new }
    {
        path.clear();
        if path.push(name).is_err() {
            return false;
        }
        climb(self, dir, path)
    }
}

/// Puts the names from the root to a directory in front of these, the last of which comes first.
/// Answers whether a way leads there. Where none does it takes no step, or there may be no room.
fn climb<'m>(ways: &WaysUp<'m, '_>, dir: u32, path: &mut Vec<&'m [u8]>) -> bool
    requires { path_length (path_below ways.now.mounted.now.state dir
        (reverse (names_held path.old))) ≤ vec_capacity path.old }
    ensures found { IsTrue result → path_below ways.now.mounted.now.state dir
        (reverse (names_held path.old)) ≡ Some (names_held path.new) }
    ensures none { IsFalse result
        → path_below ways.now.mounted.now.state dir (reverse (names_held path.old)) ≡ None }
    ensures capacity { vec_capacity path.old ≤ vec_capacity path.new }
{
    if ways.is_nowhere(dir) {
        return false;
    }
    let mut left = ways.steps;
    let mut here = dir;
    while left > 0 {
        if !is_directory(ways.mounted, here) {
            return false;
        }
        if here == ROOT {
            path.reverse();
            return true;
        }
        let Some((pino, name, _)) = ways.name_up(here) else {
            return false;
        };
        if path.push(name).is_err() {
            return false;
        }
        here = pino;
        left -= 1;
    }
    false
}
