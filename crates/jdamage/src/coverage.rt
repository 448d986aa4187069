//! Which damaged inode nodes are missed.
//!
//! The sound versions are taken from the highest down. Of the places where a range begins or ends
//! those are kept that no version has that was taken: a range is covered where none is left in it.

ghost use Rattle.std.specs.Prelude.{◌≡◌, ◌<◌, ◌≤◌, ◌&&◌, ◌++◌, ◌∷◌, ℕ, List, [], IfNone, IfSome, OnOk, IfOk, true, false, not, nat_lt, nat_le};
ghost use Rattle.std.specs.BTreeSet.{contains};
ghost use Rattle.std.specs.List.{All};
ghost use Rattle.std.specs.Ordering.{nat_cmp};
ghost use Rattle.jdamage.specs.Coverage.{hides_nothing};
ghost use Rattle.jdamage.specs.Sweep.{AreBelow, Ascends, HaveEnds, Numbers, Taken, spot};
ghost use Rattle.jgaps.specs.declared.fields.Stretch.{Stretch};

use jgaps::Stretch;
use std::alloc::AllocError;
use std::collections::BTreeSet;

/// One number for a place of an object.
pub(crate) fn spot(ino: u32, place: u64) -> u64
    ensures { result ≡ spot ino place }
{
    u64::from(ino) * (1 << 32) + place.min(u64::from(u32::MAX))
}

/// The first spot that is bare, from one on and before another.
fn first_bare(bare: &BTreeSet<u64>, from: u64, to: u64) -> Option<u64>
    ensures there { IfSome result (λ c. contains nat_cmp bare.now c ≡ true) }
    ensures from { IfSome result (λ c. from ≤ c) }
    ensures to { IfSome result (λ c. c < to) }
    ensures none { IfNone result ((c : ℕ) → from ≤ c → c < to
        → contains nat_cmp bare.now c ≡ false) }
{
    match bare.range(from..).next() {
        Some(c) if *c < to => Some(*c),
        _ => None,
    }
}

/// Spots from one on and before another are bare no more.
fn cover(bare: &mut BTreeSet<u64>, from: u64, to: u64)
    ensures { (c : ℕ) → contains nat_cmp bare.new c
        ≡ (contains nat_cmp bare.old c && not (nat_le from c && nat_lt c to)) }
{
    while let Some(c) = first_bare(bare, from, to) {
        bare.remove(&c);
    }
}

/// Takes the highest version that is left, where it is not below one.
fn next_version(left: &mut Vec<Stretch>, version: u32) -> Option<Stretch>
    requires { Ascends left.old.items }
    ensures some { IfSome result (λ s. left.old.items ≡ left.new.items ++ s ∷ []) }
    ensures high { IfSome result (λ s. version ≤ s.version) }
    ensures none { IfNone result (left.new.items ≡ left.old.items) }
    ensures below { IfNone result (AreBelow version left.old.items) }
    ensures ascends { Ascends left.new.items }
{
    let last = *left.last()?;
    if last.version < version {
        return None;
    }
    left.pop();
    Some(last)
}

/// Takes all versions that are not below one.
pub(crate) fn take_from(
    version: u32,
    left: &mut Vec<Stretch>,
    bare: &mut BTreeSet<u64>,
    numbers: &mut BTreeSet<u32>,
) -> Result<(), AllocError>
    requires { Ascends left.old.items }
    ensures taken { OnOk result ((all : List Stretch) (spots : Numbers)
        → Taken version all spots left.old.items bare.old numbers.old
        → Taken version all spots left.new.items bare.new numbers.new) }
    ensures below { OnOk result (AreBelow version left.new.items) }
    ensures ascends { OnOk result (Ascends left.new.items) }
{
    while let Some(stretch) = next_version(left, version) {
        let from = spot(stretch.ino, u64::from(stretch.from));
        cover(bare, from, spot(stretch.ino, stretch.to));
        numbers.insert(stretch.ino)?;
    }
    Ok(())
}

/// Whether no spot is bare from one on and before another.
fn is_covered(bare: &BTreeSet<u64>, from: u64, to: u64) -> bool
    ensures yes { result ≡ true → (c : ℕ) → from ≤ c → c < to
        → contains nat_cmp bare.now c ≡ false }
    ensures no { result ≡ false → (c : ℕ) × (from ≤ c) × (c < to)
        × (contains nat_cmp bare.now c ≡ true) }
{
    first_bare(bare, from, to).is_none()
}

/// Whether the object is the same without the lost version, where all others were taken that are
/// not below it.
pub(crate) fn hides_nothing(
    bare: &BTreeSet<u64>,
    numbers: &BTreeSet<u32>,
    size: u32,
    lost: &Stretch,
) -> bool
    ensures { (all : List Stretch) (spots : Numbers) (left : List Stretch)
        → Taken lost.now.version all spots left bare.now numbers.now
        → AreBelow lost.now.version left → HaveEnds spots all
        → contains nat_cmp spots (spot lost.now.ino lost.now.from) ≡ true
        → result ≡ hides_nothing all size lost.now }
{
    let from = spot(lost.ino, u64::from(lost.from));
    let to = spot(lost.ino, lost.to.min(u64::from(size)));
    numbers.contains(&lost.ino) && is_covered(bare, from, to)
}
