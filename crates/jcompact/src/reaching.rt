//! The objects that no names lead to.

ghost use Rattle.std.specs.Prelude.{◌≡◌, ◌+◌, ℕ, [], ◌∷◌, true, false, Decides, IfOk, OnOk, IsTrue, IsFalse, cond, length};
ghost use Rattle.std.specs.BTreeSet.{contains};
ghost use Rattle.std.specs.Ordering.{eq_by_cmp, nat_cmp};
ghost use Rattle.jmount.specs.Tree as tree;
ghost use Rattle.jcompact.specs.Matters.{NamesLeadTo};
ghost use Rattle.jcompact.specs.Reaching.{IsMetUpTo};

use jmount::{Kind, Mounted, ROOT};
use std::alloc::{AllocError, Global};
use std::collections::BTreeSet;

/// Whether this number is that of a directory.
pub(crate) fn is_directory(mounted: &Mounted<'_>, ino: u32) -> bool
    ensures { result ≡ tree.is_directory mounted.now.state ino }
{
    match mounted.object(ino) {
        Some(object) => object.kind == Kind::Directory,
        None => false,
    }
}

/// The numbers of all objects.
fn numbers_of(alloc: Global, mounted: &Mounted<'_>) -> Result<BTreeSet<u32>, AllocError>
    ensures there { IfOk result (λ numbers. (i : ℕ) → contains nat_cmp numbers i ≡ true
        → tree.is_there mounted.now.state i ≡ true) }
    ensures each { IfOk result (λ numbers. (i : ℕ) → tree.is_there mounted.now.state i ≡ true
        → contains nat_cmp numbers i ≡ true) }
{
    let mut numbers = BTreeSet::new(alloc);
    for (ino, _) in mounted.objects() {
        numbers.insert(ino)?;
    }
    Ok(numbers)
}

/// Takes out what a name of an object stands for, if that is a directory. Answers whether it was
/// there.
fn take(mounted: &Mounted<'_>, dir: u32, ino: u32, unmet: &mut BTreeSet<u32>) -> bool
    ensures directory { IsTrue result → tree.is_directory mounted.now.state dir ≡ true }
    ensures there { IsTrue result → contains nat_cmp unmet.old ino ≡ true }
    ensures taken { IsTrue result → (i : ℕ) → contains nat_cmp unmet.new i
        ≡ cond (eq_by_cmp nat_cmp ino i) false (contains nat_cmp unmet.old i) }
    ensures fewer { IsTrue result → length unmet.new.keys + 1 ≡ length unmet.old.keys }
    ensures none { IsFalse result → tree.is_directory mounted.now.state dir ≡ true
        → contains nat_cmp unmet.old ino ≡ false }
    ensures same { IsFalse result → unmet.new.keys ≡ unmet.old.keys }
{
    is_directory(mounted, dir) && unmet.remove(&ino)
}

/// Takes out what names lead to from these objects.
fn take_reached(
    mounted: &Mounted<'_>,
    mut above: Vec<u32>,
    unmet: &mut BTreeSet<u32>,
) -> Result<(), AllocError>
    ensures { OnOk result (IsMetUpTo mounted.now.state above.items unmet.old
        → IsMetUpTo mounted.now.state [] unmet.new) }
{
    while let Some(dir) = above.pop() {
        for (_, ino) in mounted.entries(dir) {
            if take(mounted, dir, ino, unmet) {
                above.push(ino)?;
            }
        }
    }
    Ok(())
}

/// The objects of a mounted image that no names lead to from the root, as those of which the last
/// name is gone, or a directory that lies below itself alone. n names take O(n log n). Takes memory
/// for the numbers of all objects.
///
/// # Errors
/// Out of memory.
pub fn unreached(alloc: Global, mounted: &Mounted<'_>) -> Result<BTreeSet<u32>, AllocError>
    ensures unreached { IfOk result (λ unreached. (i : ℕ) → tree.is_there mounted.now.state i ≡ true
        → Decides (contains nat_cmp unreached i) (NamesLeadTo mounted.now.state i → ⊥)) }
    ensures reached { IfOk result (λ unreached. (i : ℕ) → tree.is_there mounted.now.state i ≡ true
        → contains nat_cmp unreached i ≡ false → NamesLeadTo mounted.now.state i) }
{
    let mut unmet = numbers_of(alloc, mounted)?;
    unmet.remove(&ROOT);
    let mut above = Vec::new(alloc);
    above.push(ROOT)?;
    take_reached(mounted, above, &mut unmet)?;
    Ok(unmet)
}
