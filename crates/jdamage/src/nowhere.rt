//! The directories from which no way leads up to the root.

ghost use Rattle.std.specs.Prelude.{◌≡◌, ◌⊎◌, ℕ, true, false, IfOk, OnOk};
ghost use Rattle.std.specs.BTreeSet.{IsEmpty, contains};
ghost use Rattle.std.specs.Ordering.{nat_cmp};
ghost use Rattle.jmount.specs.Tree as tree;
ghost use Rattle.jdamage.specs.Ways.{FirstsLeadNowhere};

use crate::firsts::is_directory;
use jmount::{Mounted, ROOT};
use std::alloc::{AllocError, Global};
use std::collections::BTreeSet;

/// Adds numbers to others.
fn add_all(numbers: &mut BTreeSet<u32>, more: BTreeSet<u32>) -> Result<(), AllocError>
    ensures { OnOk result ((i : ℕ) → contains nat_cmp numbers.new i ≡ true
        → contains nat_cmp numbers.old i ≡ false → contains nat_cmp more i ≡ true) }
{
    let mut left = more;
    while let Some(number) = left.pop_first() {
        numbers.insert(number)?;
    }
    Ok(())
}

/// Whether a way up ends here: it is known that this leads nowhere, it was met before, or it is no
/// directory.
fn is_end(mounted: &Mounted<'_>, nowhere: &BTreeSet<u32>, met: &BTreeSet<u32>, here: u32) -> bool
    ensures end { result ≡ true → (contains nat_cmp nowhere.now here ≡ true)
        ⊎ ((contains nat_cmp met.now here ≡ true)
        ⊎ (tree.is_directory mounted.now.state here ≡ false)) }
    ensures there { result ≡ false → tree.is_directory mounted.now.state here ≡ true }
{
    if nowhere.contains(&here) {
        return true;
    }
    met.contains(&here) || !is_directory(mounted, here)
}

/// Goes up from a directory until it meets the root, or one of which it is known that it leads
/// there; answers whether it did. Else the directories on the way lead nowhere: the way ends, or
/// comes back to one that it met. Each step meets another number, so it is at an end in 2^32 steps.
fn goes_up(
    mounted: &Mounted<'_>,
    dir: u32,
    up: &BTreeSet<u32>,
    nowhere: &BTreeSet<u32>,
    met: &mut BTreeSet<u32>,
) -> Result<bool, AllocError>
    requires nowhere { FirstsLeadNowhere mounted.now.state nowhere.now }
    requires none { IsEmpty met.old }
    ensures { IfOk result (λ is_up. is_up ≡ false → FirstsLeadNowhere mounted.now.state met.new) }
{
    let mut here = dir;
    let mut left = 1u64 << 32;
    while left > 0 {
        if here == ROOT || up.contains(&here) {
            return Ok(true);
        }
        if is_end(mounted, nowhere, met, here) {
            return Ok(false);
        }
        let Some(above) = mounted.first_directory(here) else {
            return Ok(false);
        };
        met.insert(here)?;
        here = above;
        left -= 1;
    }
    Ok(true)
}

/// Notes where the way up from a directory leads: the directories on it are up, or lead nowhere.
/// Takes O(log n) for each that was not noted before.
fn note_way(
    alloc: Global,
    mounted: &Mounted<'_>,
    dir: u32,
    up: &mut BTreeSet<u32>,
    nowhere: &mut BTreeSet<u32>,
) -> Result<(), AllocError>
    requires { FirstsLeadNowhere mounted.now.state nowhere.old }
    ensures { OnOk result (FirstsLeadNowhere mounted.now.state nowhere.new) }
{
    let mut met = BTreeSet::new(alloc);
    if goes_up(mounted, dir, up, nowhere, &mut met)? {
        return add_all(up, met);
    }
    add_all(nowhere, met)
}

/// Of these directories, and of those above them, the ones that lead nowhere; the others are added
/// to `up`. O(n log n) for n directories on these ways.
pub(crate) fn nowhere_of(
    alloc: Global,
    mounted: &Mounted<'_>,
    dirs: &BTreeSet<u32>,
    up: &mut BTreeSet<u32>,
) -> Result<BTreeSet<u32>, AllocError>
    ensures { IfOk result (λ nowhere. FirstsLeadNowhere mounted.now.state nowhere) }
{
    let mut nowhere = BTreeSet::new(alloc);
    for dir in dirs.iter() {
        note_way(alloc, mounted, *dir, up, &mut nowhere)?;
    }
    Ok(nowhere)
}
