//! What is asked of a mounted image.

use crate::mount::images::{Item, image_of};
use jmount::{FindFault, Kind, Mounted, Object, mount};
use jnode::Order;
use jscan::Geometry;
use std::alloc::Global;
use std::test::Fail;

/// An object and its kind.
#[derive(Clone, Copy)]
pub struct OfKind(pub u32, pub Kind);

/// A name of a directory, and the number that it stands for.
#[derive(Clone, Copy)]
pub struct Named(pub &'static [u8], pub u32);

/// A directory, a name in it, and the number that it stands for.
#[derive(Clone, Copy)]
pub struct Live(pub u32, pub &'static [u8], pub u32);

/// A call on a mounted image, and its answer.
#[derive(Clone, Copy)]
pub enum Fact {
    Find(&'static [u8], Result<u32, FindFault>),
    Object(u32, Option<Object>),
    /// All objects, by number and kind.
    Objects(&'static [OfKind]),
    /// The names of a directory.
    Entries(u32, &'static [Named]),
    Names(&'static [Live]),
    Dangling(&'static [Live]),
    /// The directory of the first name of a number.
    FirstDirectory(u32, Option<u32>),
    /// Whether several names stand for a number whose object is there.
    SeveralNames(u32, bool),
    /// What reading from an offset into a slice of so many bytes puts at its front.
    Bytes(u32, u64, usize, &'static [u8]),
    /// Where the zeros of an object end that no node has, from an offset on.
    HoleEnd(u32, u64, u64),
    Top(u32, u32),
    Next(u64),
    /// How many findings there are.
    Findings(usize),
    ReadOnly(bool),
}

/// Which of the facts is the first that is wrong of the mounted image. 0 is that it shows its
/// bytes.
pub fn first_wrong<E: Order>(
    alloc: Global,
    items: &[Item],
    facts: &[Fact],
) -> Result<Option<usize>, Fail> {
    let image = image_of::<E>(alloc, items)?;
    let mounted = mount::<E>(alloc, &image, Geometry { block: 4096 })?;
    if mounted.image() != image.as_slice() {
        return Ok(Some(0));
    }
    let wrong = facts.iter().position(|fact| !holds(alloc, &mounted, *fact));
    Ok(wrong.map(|index| index + 1))
}

fn holds(alloc: Global, mounted: &Mounted<'_>, fact: Fact) -> bool {
    match fact {
        Fact::Find(path, wanted) => mounted.find(path) == wanted,
        Fact::Object(ino, wanted) => mounted.object(ino) == wanted,
        Fact::Objects(wanted) => are_objects(mounted, wanted),
        Fact::Entries(dir, wanted) => are_entries(mounted, dir, wanted),
        Fact::Names(wanted) => are_names(mounted, wanted),
        Fact::Dangling(wanted) => are_dangling(alloc, mounted, wanted),
        Fact::FirstDirectory(ino, wanted) => mounted.first_directory(ino) == wanted,
        Fact::SeveralNames(ino, wanted) => mounted.has_several_names(ino) == wanted,
        Fact::Bytes(ino, offset, room, wanted) => reads(mounted, ino, offset, room, wanted),
        Fact::HoleEnd(ino, offset, wanted) => mounted.hole_end(ino, offset) == wanted,
        Fact::Top(ino, wanted) => mounted.top(ino) == wanted,
        Fact::Next(wanted) => mounted.next() == wanted,
        Fact::Findings(wanted) => mounted.findings().len() == wanted,
        Fact::ReadOnly(wanted) => mounted.read_only() == wanted,
    }
}

fn are_objects(mounted: &Mounted<'_>, wanted: &[OfKind]) -> bool {
    let mut objects = mounted.objects();
    for &OfKind(ino, kind) in wanted {
        let next = objects.next();
        let object = mounted.object(ino);
        if next != object.map(|object| (ino, object))
            || object.map(|object| object.kind) != Some(kind)
        {
            return false;
        }
    }
    objects.next().is_none()
}

fn are_entries(mounted: &Mounted<'_>, dir: u32, wanted: &[Named]) -> bool {
    let mut entries = mounted.entries(dir);
    for &Named(name, ino) in wanted {
        if entries.next() != Some((name, ino)) {
            return false;
        }
    }
    entries.next().is_none()
}

fn are_names(mounted: &Mounted<'_>, wanted: &[Live]) -> bool {
    let mut names = mounted.names();
    for &Live(dir, name, ino) in wanted {
        if names.next() != Some((dir, name, ino)) {
            return false;
        }
    }
    names.next().is_none()
}

fn are_dangling(alloc: Global, mounted: &Mounted<'_>, wanted: &[Live]) -> bool {
    let Ok(names) = mounted.dangling(alloc) else {
        return false;
    };
    let mut left = names.iter();
    for &Live(dir, name, ino) in wanted {
        if left.next() != Some(&(dir, name, ino)) {
            return false;
        }
    }
    left.next().is_none()
}

/// Reads into a slice of at most 128 bytes. What is not read stays as it was.
fn reads(mounted: &Mounted<'_>, ino: u32, offset: u64, room: usize, wanted: &[u8]) -> bool {
    let mut bytes = [b'#'; 128];
    let Some(out) = bytes.get_mut(..room) else {
        return false;
    };
    let count = mounted.read_at(ino, offset, out);
    bytes.starts_with(wanted)
        && count == wanted.len()
        && bytes[count..].iter().all(|byte| *byte == b'#')
}
