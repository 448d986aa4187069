//! How an index keeps an object.

ghost use Rattle.std.specs.Prelude.{◌≡◌, ◌==◌, ◌<◌, ℕ, OnOk, OnErr, Some, None, option_map, if◌then◌else◌};
ghost use Rattle.std.specs.Ordering.{nat_cmp};
ghost use Rattle.std.specs.BTreeMap.{get, IsUnchanged, Updates};
ghost use Rattle.jmount.specs.Shown.{shown_outline};
ghost use Rattle.jsteps.specs.Stored.{stored_outline, top_in, size_in, raised, changed, attributed};

use crate::op::Attributes;
use crate::step::with_permissions;
use jmount::{Object, kind_of};
use std::alloc::AllocError;
use std::collections::BTreeMap;

/// An object without its bytes: its attributes, its size, and the greatest version of its number.
#[derive(Clone, Copy)]
pub struct Stored {
    pub mode: u32,
    pub uid: u16,
    pub gid: u16,
    pub size: u32,
    pub atime: u32,
    pub mtime: u32,
    pub ctime: u32,
    pub top: u32,
}

pub type Objects = BTreeMap<u32, Stored>;

/// Puts an object under a number. A number that has one takes no memory.
pub fn put_object(objects: &mut Objects, ino: u32, stored: Stored) -> Result<(), AllocError>
    ensures ok { OnOk result (Updates nat_cmp objects.old objects.new ino (Some stored)) }
    ensures err { OnErr result (IsUnchanged objects.old objects.new) }
    ensures absent { OnErr result (get nat_cmp objects.old ino ≡ None) }
{
    objects.insert(ino, stored)?;
    Ok(())
}

/// The size of the object of a number, and 0 where there is none.
pub fn size_in(objects: &Objects, ino: u32) -> u32
    ensures { result ≡ size_in objects.now ino }
{
    objects.get(&ino).map_or(0, |stored| stored.size)
}

/// The greatest version of a number, and 0 where it has no object.
pub fn top_in(objects: &Objects, ino: u32) -> u32
    ensures { result ≡ top_in objects.now ino }
{
    objects.get(&ino).map_or(0, |stored| stored.top)
}

/// A number has one more version.
pub fn raise(objects: &mut Objects, ino: u32)
    requires { top_in objects.old ino < 0xFFFFFFFF }
    ensures { (i : ℕ) → get nat_cmp objects.new i ≡ (if ino
        == i then option_map raised (get nat_cmp objects.old i) else get nat_cmp objects.old
        i) }
{
    if let Some(stored) = objects.get_mut(&ino) {
        stored.top += 1;
    }
}

/// The object of a number has one more version, of this size.
pub fn change(objects: &mut Objects, ino: u32, time: u32, size: u32)
    requires { top_in objects.old ino < 0xFFFFFFFF }
    ensures { (i : ℕ) → get nat_cmp objects.new i ≡ (if ino
        == i then option_map (changed time size) (get nat_cmp objects.old i) else get nat_cmp
        objects.old i) }
{
    if let Some(stored) = objects.get_mut(&ino) {
        stored.size = size;
        stored.mtime = time;
        stored.ctime = time;
        stored.top += 1;
    }
}

/// The object of a number has one more version, of these attributes.
pub fn set_attributes(objects: &mut Objects, ino: u32, time: u32, attributes: Attributes)
    requires { top_in objects.old ino < 0xFFFFFFFF }
    ensures { (i : ℕ) → get nat_cmp objects.new i ≡ (if ino
        == i then option_map (attributed time attributes) (get nat_cmp objects.old i) else get
        nat_cmp objects.old i) }
{
    if let Some(stored) = objects.get_mut(&ino) {
        stored.mode = with_permissions(stored.mode, attributes.mode);
        stored.uid = attributes.uid;
        stored.gid = attributes.gid;
        stored.atime = attributes.atime;
        stored.mtime = attributes.mtime;
        stored.ctime = time;
        stored.top += 1;
    }
}

/// The object as callers see it, without the number of a device.
pub fn shown(stored: Stored) -> Object
    ensures { result ≡ shown_outline (stored_outline stored) }
{
    Object {
        kind: kind_of(stored.mode),
        mode: stored.mode,
        uid: stored.uid,
        gid: stored.gid,
        size: stored.size,
        atime: stored.atime,
        mtime: stored.mtime,
        ctime: stored.ctime,
        device: None,
    }
}
