//! Pairs of objects whose bytes were compared.

ghost use Rattle.std.specs.Prelude.{◌≡◌, ◌≤◌, IfErr, IfOk, IfSome, OnOk, length};
ghost use Rattle.jmount.specs.Shown.{readable};
ghost use Rattle.jdiff.specs.Changes.{first_difference};
ghost use Rattle.jdiff.specs.Compared.{AreCompared, IsPlaceHere, IsPlaceOf};
ghost use Rattle.jdiff.specs.Walking.{IsFoundIn};

use crate::bytes::first_difference;
use crate::found::Found;
use crate::spot::{Trees, is_same_object};
use jreport::ProgramFault;
use std::collections::BTreeMap;

/// The first place at which the bytes of two objects differ, by their numbers. Pairs that may be met
/// again are kept.
pub(crate) type Compared = BTreeMap<(u32, u32), Option<u64>>;

/// Whether the pair of these objects may be met again: both have several names.
fn comes_again(trees: &Trees<'_, '_>, left: u32, right: u32) -> bool {
    trees.left.has_several_names(left) && trees.right.has_several_names(right)
}

/// Compares the bytes of two objects that are the same otherwise, or remembers what came of it.
fn compare(
    trees: &Trees<'_, '_>,
    left: &Found,
    right: &Found,
    compared: &mut Compared,
) -> Result<Option<u64>, ProgramFault<'static>>
    requires left { length (readable trees.now.left.now.state left.now.ino)
        ≤ left.now.object.size }
    requires right { length (readable trees.now.right.now.state right.now.ino)
        ≤ left.now.object.size }
    requires known { AreCompared trees.now.left.now.state trees.now.right.now.state compared.old }
    ensures place { IfOk result (λ place. place ≡ first_difference
        (readable trees.now.left.now.state left.now.ino)
        (readable trees.now.right.now.state right.now.ino)) }
    ensures known { OnOk result
        (AreCompared trees.now.left.now.state trees.now.right.now.state compared.new) }
    ensures fault { IfErr result (λ fault. fault ≡ ProgramFault.OutOfMemory) }
{
    if let Some(place) = compared.get(&(left.ino, right.ino)) {
        return Ok(*place);
    }
    let size = left.object.size;
    let place = first_difference(trees.left, left.ino, trees.right, right.ino, size);
    if !comes_again(trees, left.ino, right.ino) {
        return Ok(place);
    }
    compared.insert((left.ino, right.ino), place)?;
    Ok(place)
}

/// The first place at which bytes differ on a path, where both trees have an object there and these
/// are the same otherwise. The bytes of a pair are compared once, however many paths lead to it.
pub(crate) fn place_of(
    trees: &Trees<'_, '_>,
    left: &Option<Found>,
    right: &Option<Found>,
    compared: &mut Compared,
) -> Result<Option<u64>, ProgramFault<'static>>
    requires left { IfSome left.now (λ f. IsFoundIn trees.now.left.now.state f) }
    requires right { IfSome right.now (λ f. IsFoundIn trees.now.right.now.state f) }
    requires known { AreCompared trees.now.left.now.state trees.now.right.now.state compared.old }
    ensures place { IfOk result (IsPlaceHere trees.now.how trees.now.left.now.state
        trees.now.right.now.state left.now right.now) }
    ensures known { OnOk result
        (AreCompared trees.now.left.now.state trees.now.right.now.state compared.new) }
    ensures fault { IfErr result (λ fault. fault ≡ ProgramFault.OutOfMemory) }
{
    match (left, right) {
        (Some(ours), Some(theirs))
            if is_same_object(trees.how.times, &ours.object, &theirs.object) => {
            compare(trees, ours, theirs, compared)
        }
        _ => Ok(None),
    }
}
