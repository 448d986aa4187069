//! Mounting an image of which contents are wanted by what its tree is.

ghost use Rattle.std.specs.Prelude.{◌≡◌, ◌==◌, ◌&&◌, ℕ, true, cond, Ok, Decides, IfErr, IfOk, IfSome, OnOk};
ghost use Rattle.std.specs.BTreeSet.{contains, IsSameSet};
ghost use Rattle.std.specs.Ordering.{eq_by_cmp, nat_cmp};
ghost use Rattle.jmount.specs.Tree.{type_bits, symlink_bits};
ghost use Rattle.jlook.specs.Chosen.{AnswersChosen, AreChosen, IsNoLook, object_by_path, symlinks_in};
ghost use Rattle.jlook.specs.Look.{IsSightedOf};

use crate::guessing::likely_symlinks;
use crate::mounting::{mount_plain, mount_sighted, mount_without};
use crate::sighted::Sighted;
use jmount::{Mounted, Object, type_bits};
use jnode::Order;
use jscan::Geometry;
use jthrough::ViewFault;
use std::alloc::{AllocError, Global};
use std::collections::BTreeSet;

/// Bits 12 to 15 of the mode of a symlink (Linux, `include/uapi/linux/stat.h`).
pub(crate) const SYMLINK_BITS: u32 = 10;

fn is_symlink(object: &Object) -> bool
    ensures { result ≡ (type_bits object.now.mode == symlink_bits) }
{
    type_bits(object.mode) == SYMLINK_BITS
}

/// Adds the number of an object, if it is a symlink.
fn add_symlink(numbers: &mut BTreeSet<u32>, ino: u32, object: &Object) -> Result<(), AllocError>
    ensures { OnOk result ((i : ℕ) → contains nat_cmp numbers.new i ≡ cond
        (eq_by_cmp nat_cmp ino i && (type_bits object.now.mode == symlink_bits)) true
        (contains nat_cmp numbers.old i)) }
{
    if !is_symlink(object) {
        return Ok(());
    }
    numbers.insert(ino)?;
    Ok(())
}

/// The numbers of the symlinks of a mounted image.
fn symlinks_of(alloc: Global, mounted: &Mounted<'_>) -> Result<BTreeSet<u32>, AllocError>
    ensures { IfOk result (λ numbers. (i : ℕ)
        → contains nat_cmp numbers i ≡ symlinks_in mounted.now.state i) }
{
    let mut numbers = BTreeSet::new(alloc);
    for (ino, object) in mounted.objects() {
        add_symlink(&mut numbers, ino, &object)?;
    }
    Ok(numbers)
}

/// The number of the object that a path names in a mounted image, if it names one.
fn number_at(alloc: Global, mounted: &Mounted<'_>, path: &[u8]) -> Result<BTreeSet<u32>, AllocError>
    ensures { IfOk result (λ numbers. (i : ℕ)
        → contains nat_cmp numbers i ≡ object_by_path path.now mounted.now.state i) }
{
    let mut numbers = BTreeSet::new(alloc);
    match mounted.find(path) {
        Ok(ino) => {
            numbers.insert(ino)?;
            Ok(numbers)
        }
        Err(_) => Ok(numbers),
    }
}

/// Whether two sets have the same numbers.
fn are_same(numbers: &BTreeSet<u32>, others: &BTreeSet<u32>) -> bool
    ensures { Decides result (IsSameSet nat_cmp numbers.now others.now) }
{
    numbers.is_subset(others) && others.is_subset(numbers)
}

/// The mount of an image that was gone over for its tree, by one look: if what uncompressed nodes say
/// are symlinks are just these, and none of their data are compressed.
fn mount_at_once<'a, E: Order>(
    alloc: Global,
    image: &'a [u8],
    geometry: Geometry,
    sighted: &Sighted<'a>,
) -> Result<Option<Mounted<'a>>, AllocError>
    requires sighted { IsSightedOf E.order geometry.block image.now sighted.now }
    ensures { IfOk result (λ found. IfSome found (λ mounted.
        AnswersChosen symlinks_in E.order geometry.block image.now (Ok mounted))) }
{
    let likely = likely_symlinks(alloc, sighted)?;
    let found = mount_plain::<E>(alloc, image, geometry, sighted, &likely)?;
    let Some(mounted) = found else {
        return Ok(None);
    };
    let numbers = symlinks_of(alloc, &mounted)?;
    if are_same(&numbers, &likely) {
        return Ok(Some(mounted));
    }
    Ok(None)
}

/// The symlinks of an image that was gone over, by a look that wants no contents.
fn find_symlinks<'a, E: Order>(
    alloc: Global,
    image: &'a [u8],
    geometry: Geometry,
    sighted: &Sighted<'a>,
) -> Result<BTreeSet<u32>, ViewFault>
    requires sighted { IsSightedOf E.order geometry.block image.now sighted.now }
    ensures found { IfOk result (λ numbers. AreChosen symlinks_in E.order geometry.block image.now
        (contains nat_cmp numbers)) }
    ensures err { IfErr result (IsNoLook E.order geometry.block image.now) }
{
    let mounted = mount_without::<E>(alloc, image, geometry, sighted)?;
    match symlinks_of(alloc, &mounted) {
        Ok(numbers) => Ok(numbers),
        Err(_) => Err(ViewFault::OutOfMemory),
    }
}

/// The object that a path names in an image that was gone over, by a look that wants no contents.
fn find_object<'a, E: Order>(
    alloc: Global,
    image: &'a [u8],
    geometry: Geometry,
    sighted: &Sighted<'a>,
    path: &[u8],
) -> Result<BTreeSet<u32>, ViewFault>
    requires sighted { IsSightedOf E.order geometry.block image.now sighted.now }
    ensures found { IfOk result (λ numbers. AreChosen (object_by_path path.now) E.order
        geometry.block image.now (contains nat_cmp numbers)) }
    ensures err { IfErr result (IsNoLook E.order geometry.block image.now) }
{
    let mounted = mount_without::<E>(alloc, image, geometry, sighted)?;
    match number_at(alloc, &mounted, path) {
        Ok(numbers) => Ok(numbers),
        Err(_) => Err(ViewFault::OutOfMemory),
    }
}

/// Mounts an image for its tree: the targets of symlinks are wanted, and no other contents. The
/// image is gone over once. It is looked at once if its uncompressed nodes alone tell the symlinks and
/// their targets, and else first to find them. Else as `mount_looked`.
///
/// # Errors
/// As `mount_looked`, of the first look and then of the second.
pub fn mount_tree<'a, E: Order>(
    alloc: Global,
    image: &'a [u8],
    geometry: Geometry,
    contents: &'a mut Vec<u8>,
) -> Result<Mounted<'a>, ViewFault>
    ensures { AnswersChosen symlinks_in E.order geometry.block image.now result }
{
    let sighted = Sighted::of::<E>(alloc, image, geometry)?;
    let at_once = mount_at_once::<E>(alloc, image, geometry, &sighted)?;
    if let Some(mounted) = at_once {
        return Ok(mounted);
    }
    let numbers = find_symlinks::<E>(alloc, image, geometry, &sighted)?;
    mount_sighted::<E>(alloc, image, geometry, &sighted, &numbers, contents)
}

/// Mounts an image for the object that a path names, as `Mounted::find` does: its contents are
/// wanted, and no others. The image is gone over once, and looked at twice, first to find the object;
/// if there is none, then no contents are wanted. Else as `mount_looked`.
///
/// # Errors
/// As `mount_looked`, of the first look and then of the second.
pub fn mount_object<'a, E: Order>(
    alloc: Global,
    image: &'a [u8],
    geometry: Geometry,
    path: &[u8],
    contents: &'a mut Vec<u8>,
) -> Result<Mounted<'a>, ViewFault>
    ensures { AnswersChosen (object_by_path path.now) E.order geometry.block image.now result }
{
    let sighted = Sighted::of::<E>(alloc, image, geometry)?;
    let numbers = find_object::<E>(alloc, image, geometry, &sighted, path)?;
    mount_sighted::<E>(alloc, image, geometry, &sighted, &numbers, contents)
}
