//! What is told of a path of two trees.

ghost use Rattle.std.specs.Prelude.{◌≡◌, ◌≤◌, IfOk, IfSome, length, map, Some, None};
ghost use Rattle.std.specs.List.{flat_map};
ghost use Rattle.flashbase.specs.Sinks.{PutsTo};
ghost use Rattle.jmount.specs.Shown.{readable};
ghost use Rattle.jdiff.specs.Changes.{both_lines, bytes_changes, changes, first_difference, is_same_object, is_symlink, number_changes, number_of_device, object_changes};
ghost use Rattle.jdiff.specs.Compared.{IsPlaceHere, IsPlaceOf};
ghost use Rattle.jdiff.specs.Walking.{entries_here, entry_found, IsFoundIn};

use crate::comparing::Comparing;
use crate::found::Found;
use crate::line::{put_entry, put_place};
use crate::number::{is_same_number, number_of_device, put_numbers};
use flashbase::{DeviceFault, Sink};
use jmount::{Kind, Mounted, Object};

/// Two trees, and what of them is compared.
#[derive(Clone, Copy)]
pub(crate) struct Trees<'m, 'a> {
    pub left: &'m Mounted<'a>,
    pub right: &'m Mounted<'a>,
    pub how: Comparing,
}

/// Whether two objects are the same, but for their bytes.
pub(crate) fn is_same_object(times: bool, left: &Object, right: &Object) -> bool
    ensures { result ≡ is_same_object times left.now right.now }
{
    left.mode % 65536 == right.mode % 65536
        && left.uid == right.uid
        && left.gid == right.gid
        && left.size == right.size
        && (!times || left.mtime == right.mtime)
}

fn is_symlink(kind: Kind) -> bool
    ensures { result ≡ is_symlink kind }
{
    matches!(kind, Kind::Symlink)
}

/// Puts the lines of both objects.
fn put_both<T: Sink>(
    trees: &Trees<'_, '_>,
    path: &[&[u8]],
    left: &Found,
    right: &Found,
    sink: &mut T,
) -> Result<u64, DeviceFault>
    requires left { IsFoundIn trees.now.left.now.state left.now }
    requires right { IsFoundIn trees.now.right.now.state right.now }
    ensures puts { let way = map (λ name. name.now) path.now in
        PutsTo T.Sink sink.old sink.new (flat_map (λ line. line) (both_lines trees.now.how.times
        (entry_found trees.now.left.now.state way left.now)
        (entry_found trees.now.right.now.state way right.now))) result }
    ensures count { IfOk result (λ n. n ≡ 2) }
{
    put_entry(trees.left, trees.how.times, b"- ", path, left, sink)?;
    put_entry(trees.right, trees.how.times, b"+ ", path, right, sink)?;
    Ok(2)
}

/// Puts where the bytes of two objects differ that are the same otherwise.
fn put_bytes<T: Sink>(
    trees: &Trees<'_, '_>,
    path: &[&[u8]],
    left: &Found,
    right: &Found,
    place: Option<u64>,
    sink: &mut T,
) -> Result<u64, DeviceFault>
    requires left { IsFoundIn trees.now.left.now.state left.now }
    requires right { IsFoundIn trees.now.right.now.state right.now }
    requires place { place ≡ first_difference (readable trees.now.left.now.state left.now.ino)
        (readable trees.now.right.now.state right.now.ino) }
    ensures puts { let way = map (λ name. name.now) path.now in
        let x = entry_found trees.now.left.now.state way left.now in
        let y = entry_found trees.now.right.now.state way right.now in
        PutsTo T.Sink sink.old sink.new (flat_map (λ line. line)
        (bytes_changes trees.now.how.times x y (first_difference x.bytes y.bytes))) result }
    ensures count { let way = map (λ name. name.now) path.now in
        let x = entry_found trees.now.left.now.state way left.now in
        let y = entry_found trees.now.right.now.state way right.now in
        IfOk result (λ n. n ≡ length
        (bytes_changes trees.now.how.times x y (first_difference x.bytes y.bytes))) }
{
    match place {
        None => Ok(0),
        Some(place) => {
            if is_symlink(left.object.kind) {
                return put_both(trees, path, left, right, sink);
            }
            put_place(path, place, sink)?;
            Ok(1)
        }
    }
}

/// Puts where two objects differ, but for the numbers of devices.
fn put_objects<T: Sink>(
    trees: &Trees<'_, '_>,
    path: &[&[u8]],
    left: &Found,
    right: &Found,
    place: Option<u64>,
    sink: &mut T,
) -> Result<u64, DeviceFault>
    requires left { IsFoundIn trees.now.left.now.state left.now }
    requires right { IsFoundIn trees.now.right.now.state right.now }
    requires place { IsPlaceOf trees.now.how trees.now.left.now.state trees.now.right.now.state
        left.now right.now place }
    ensures puts { let way = map (λ name. name.now) path.now in
        PutsTo T.Sink sink.old sink.new (flat_map (λ line. line)
        (object_changes trees.now.how.times
        (entry_found trees.now.left.now.state way left.now)
        (entry_found trees.now.right.now.state way right.now))) result }
    ensures count { let way = map (λ name. name.now) path.now in
        IfOk result (λ n. n ≡ length (object_changes trees.now.how.times
        (entry_found trees.now.left.now.state way left.now)
        (entry_found trees.now.right.now.state way right.now))) }
{
    if is_same_object(trees.how.times, &left.object, &right.object) {
        put_bytes(trees, path, left, right, place, sink)
    } else {
        put_both(trees, path, left, right, sink)
    }
}

/// Puts the numbers of two devices, if they differ.
fn put_number_changes<T: Sink>(
    trees: &Trees<'_, '_>,
    path: &[&[u8]],
    left: &Found,
    right: &Found,
    sink: &mut T,
) -> Result<u64, DeviceFault>
    ensures puts { PutsTo T.Sink sink.old sink.new (flat_map (λ line. line)
        (number_changes (map (λ name. name.now) path.now)
        (number_of_device trees.now.how.order left.now.object)
        (number_of_device trees.now.how.order right.now.object))) result }
    ensures count { IfOk result (λ n. n ≡ length
        (number_changes (map (λ name. name.now) path.now)
        (number_of_device trees.now.how.order left.now.object)
        (number_of_device trees.now.how.order right.now.object))) }
{
    let ours = number_of_device(trees.how.order, &left.object);
    let theirs = number_of_device(trees.how.order, &right.object);
    if is_same_number(ours, theirs) {
        return Ok(0);
    }
    put_numbers(path, ours, theirs, sink)?;
    Ok(1)
}

/// Puts where two objects differ.
fn put_pair<T: Sink>(
    trees: &Trees<'_, '_>,
    path: &[&[u8]],
    left: &Found,
    right: &Found,
    place: Option<u64>,
    sink: &mut T,
) -> Result<u64, DeviceFault>
    requires left { IsFoundIn trees.now.left.now.state left.now }
    requires right { IsFoundIn trees.now.right.now.state right.now }
    requires place { IsPlaceOf trees.now.how trees.now.left.now.state trees.now.right.now.state
        left.now right.now place }
    ensures puts { let way = map (λ name. name.now) path.now in
        PutsTo T.Sink sink.old sink.new (flat_map (λ line. line) (changes trees.now.how
        (Some (entry_found trees.now.left.now.state way left.now))
        (Some (entry_found trees.now.right.now.state way right.now)))) result }
    ensures count { let way = map (λ name. name.now) path.now in
        IfOk result (λ n. n ≡ length (changes trees.now.how
        (Some (entry_found trees.now.left.now.state way left.now))
        (Some (entry_found trees.now.right.now.state way right.now)))) }
{
    let count = put_objects(trees, path, left, right, place, sink)?;
    let more = put_number_changes(trees, path, left, right, sink)?;
    Ok(count + more)
}

/// Puts the lines on a path, by where bytes differ. Answers how many.
pub(crate) fn put_changes<T: Sink>(
    trees: &Trees<'_, '_>,
    path: &[&[u8]],
    left: Option<Found>,
    right: Option<Found>,
    place: Option<u64>,
    sink: &mut T,
) -> Result<u64, DeviceFault>
    requires left { IfSome left (λ f. IsFoundIn trees.now.left.now.state f) }
    requires right { IfSome right (λ f. IsFoundIn trees.now.right.now.state f) }
    requires place { IsPlaceHere trees.now.how trees.now.left.now.state
        trees.now.right.now.state left right place }
    ensures puts { let way = map (λ name. name.now) path.now in
        PutsTo T.Sink sink.old sink.new (flat_map (λ line. line) (changes trees.now.how
        (entries_here trees.now.left.now.state way left)
        (entries_here trees.now.right.now.state way right))) result }
    ensures count { let way = map (λ name. name.now) path.now in
        IfOk result
        (λ n. n ≡ length (changes trees.now.how (entries_here trees.now.left.now.state way left)
        (entries_here trees.now.right.now.state way right))) }
{
    match (left, right) {
        (None, None) => Ok(0),
        (Some(found), None) => {
            put_entry(trees.left, trees.how.times, b"- ", path, &found, sink)?;
            Ok(1)
        }
        (None, Some(found)) => {
            put_entry(trees.right, trees.how.times, b"+ ", path, &found, sink)?;
            Ok(1)
        }
        (Some(ours), Some(theirs)) => put_pair(trees, path, &ours, &theirs, place, sink),
    }
}
