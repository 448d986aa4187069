//! The names that stand for numbers, and the ways to them.

ghost use Rattle.std.specs.Prelude.{◌≡◌, ◌&&◌, ◌==◌, ◌++◌, ◌∷◌, ◌^◌, ◌<◌, ◌≤◌, ℕ, [], true, IfOk, OnOk, length, map, take, if◌then◌else◌};
ghost use Rattle.std.specs.BTreeSet.{contains};
ghost use Rattle.std.specs.Ordering.{nat_cmp};
ghost use Rattle.jdamage.specs.Groups.{group_of};
ghost use Rattle.jdamage.specs.Room.{names_told};
ghost use Rattle.jdamage.specs.Ways.{AreLed, is_led, name_held, names_led};

use crate::firsts::Name;
use crate::groups::{Groups, add, group};
use crate::ways_up::WaysUp;
use jmount::Mounted;
use std::alloc::{AllocError, Global};
use std::collections::{BTreeMap, BTreeSet};

/// Of one node so many paths are told at most.
pub(crate) const MOST_PATHS: u64 = 16;

/// Adds a name, where it stands for one of these numbers and a way leads to its directory.
fn note_name<'m>(
    alloc: Global,
    names: &mut Groups<Name<'m>>,
    numbers: &BTreeSet<u32>,
    up: &WaysUp<'m, '_>,
    name: Name<'m>,
) -> Result<(), AllocError>
    ensures { OnOk result ((i : ℕ) → contains nat_cmp numbers.now i ≡ true
        → group_of names.new i ≡ group_of names.old i
        ++ (if is_led up.now.mounted.now.state i (name_held name.entry) then name.entry ∷ []
        else [])) }
{
    if !numbers.contains(&name.2) {
        return Ok(());
    }
    if !up.leads_to(name.0) {
        return Ok(());
    }
    add(alloc, names, name.2, name)
}

/// The names of a mounted image that stand for these numbers and that a path leads to, by number.
/// Takes memory for those that it finds.
fn names_by_number<'m>(
    alloc: Global,
    up: &WaysUp<'m, '_>,
    numbers: &BTreeSet<u32>,
) -> Result<Groups<Name<'m>>, AllocError>
    ensures { IfOk result (λ names. AreLed up.now.mounted.now.state numbers.now names) }
{
    let mut names = BTreeMap::new(alloc);
    for name in up.mounted.names() {
        note_name(alloc, &mut names, numbers, up, name)?;
    }
    Ok(names)
}

/// The ways from the root of a mounted image to these numbers.
#[derive(Drop)]
pub(crate) struct Ways<'m, 'a> {
    pub up: WaysUp<'m, 'a>,
    pub numbers: &'m BTreeSet<u32>,
    names: Groups<Name<'m>>,
    ghost named: { AreLed up.mounted.now.state numbers.now names },
}

impl<'m, 'a> Ways<'m, 'a> {
    /// Of the names that stand for these numbers, and of these directories. Takes memory for both,
    /// and for the directories on the ways up from them.
    pub(crate) fn new(
        alloc: Global,
        mounted: &'m Mounted<'a>,
        numbers: &'m BTreeSet<u32>,
        dirs: &BTreeSet<u32>,
    ) -> Result<Ways<'m, 'a>, AllocError>
        ensures image { IfOk result (λ ways. ways.up.mounted.now ≡ mounted.now) }
        ensures numbers { IfOk result (λ ways. ways.numbers.now ≡ numbers.now) }
    {
        let up = WaysUp::new(alloc, mounted, dirs)?;
        let names = names_by_number(alloc, &up, numbers)?;
        Ok(Ways { up, numbers, names })
    }

    /// The names that stand for one of the numbers and that a path leads to.
    fn named(&self, ino: u32) -> &[Name<'m>]
        requires { contains nat_cmp self.now.numbers.now ino ≡ true }
        ensures { map name_held result.now ≡ names_led self.now.up.mounted.now.state ino }
    {
        group(&self.names, ino)
    }

    /// The first of these names, and so many at most.
    pub(crate) fn first_names(&self, ino: u32, most: usize) -> &[Name<'m>]
        requires { contains nat_cmp self.now.numbers.now ino ≡ true }
        ensures { map name_held result.now
            ≡ take most (names_led self.now.up.mounted.now.state ino) }
    {
        first_of(self.named(ino), most)
    }

    /// Those of these names that may be told for one node.
    #[tactic(auto, unfolding(crate::specs::Room::names_told))]
    pub(crate) fn told(&self, ino: u32) -> &[Name<'m>]
        requires { contains nat_cmp self.now.numbers.now ino ≡ true }
        ensures { map name_held result.now ≡ names_told self.now.up.mounted.now.state ino }
    {
        self.first_names(ino, MOST_PATHS as usize)
    }

    /// How many of these names there are.
    pub(crate) fn count(&self, ino: u32) -> u64
        requires { contains nat_cmp self.now.numbers.now ino ≡ true }
        ensures count { result ≡ length (names_led self.now.up.mounted.now.state ino) }
        ensures few { result < 2 ^ 63 }
    {
        self.named(ino).len() as u64
    }
}

/// The first of some names, and so many at most.
fn first_of<'s, 'm>(names: &'s [Name<'m>], most: usize) -> &'s [Name<'m>]
    ensures { map name_held result.now ≡ take most (map name_held names.now) }
{
    &names[..names.len().min(most)]
}
