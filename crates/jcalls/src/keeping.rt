//! A mount that is kept from call to call.

ghost use Rattle.std.specs.Prelude.{◌≡◌, ◌≢◌, false, true, Some, None, Ok, IfOk, IfErr, option_map, if◌then◌else◌};
ghost use Rattle.jmount.specs.Find as walk;
ghost use Rattle.jcalls.specs.Asked.{asked_order};
ghost use Rattle.jcalls.specs.Keeping.{IsObjectOf, StaysAs, LacksObject};
ghost use Rattle.jcalls.specs.Looking.{LeadsNowhere, ReadsAt};
ghost use Rattle.jcalls.specs.Shown.{RefusesBy, ShowsBy, IsDueFault};
ghost use Rattle.jcalls.specs.Told.{told_by};

use crate::how::How;
use crate::mounting::mount_plain;
use crate::reading::Place;
use crate::rows::{Stat, stat_row};
use crate::told::{Fault, OK, Told, find_told, no_memory, tell};
use byteorder::{BigEndian, LittleEndian};
use jheld::Handle;
use jmount::Mounted;
use std::alloc::Global;
use std::mem;

/// What a call answers for a handle that is closed.
const CLOSED: u32 = 34;

/// An object is not there.
const ABSENT: u32 = 11;

/// The file system of an image's nodes, in the order that is asked for.
fn mount_ordered(alloc: Global, image: &'static [u8], how: How) -> Result<Mounted<'static>, Told>
    ensures ok { IfOk result
        (λ mount. ShowsBy false (asked_order how) how.block image.now mount.state) }
    ensures err { IfErr result
        (IsDueFault (RefusesBy false (asked_order how) how.block image.now)) }
{
    if how.is_big() {
        mount_plain::<BigEndian>(alloc, image, how.block)
    } else {
        mount_plain::<LittleEndian>(alloc, image, how.block)
    }
}

/// The same, to be kept.
fn mount_kept(alloc: Global, image: &'static [u8], how: How) -> Result<Box<Mounted<'static>>, Told>
    ensures ok { IfOk result
        (λ mount. ShowsBy false (asked_order how) how.block image.now mount.value.state) }
    ensures err { IfErr result
        (IsDueFault (RefusesBy false (asked_order how) how.block image.now)) }
{
    match mount_ordered(alloc, image, how) {
        Ok(mounted) => match Box::new(alloc, mounted) {
            Ok(mounted) => Ok(mounted),
            Err(_) => Err(no_memory()),
        },
        Err(told) => Err(told),
    }
}

/// Takes its mount out of a handle, if there is one.
fn take(alloc: Global, handle: &mut Handle) -> Option<Box<Mounted<'static>>>
    ensures mount { option_map (λ mount. mount.value) result
        ≡ (if handle.old.is_open then Some handle.old.value else None) }
    ensures closed { handle.new.is_open ≡ false }
{
    mem::replace(handle, Handle::closed()).into_box(alloc)
}

/// Mounts an image and keeps the mount in a handle, whose earlier mount is dropped. Compressed data
/// are refused, whatever is asked.
///
/// # Errors
/// 1 to 7: the image does not mount. The handle is then as it was.
pub fn open(
    alloc: Global,
    image: &'static [u8],
    how: How,
    handle: &mut Handle,
    fault: &mut Fault,
) -> u32
    ensures opened { result ≡ 0 → handle.new.is_open ≡ true }
    ensures done { result ≡ 0
        → ShowsBy false (asked_order how) how.block image.now handle.new.value.state }
    ensures refused { result ≢ 0
        → RefusesBy false (asked_order how) how.block image.now (told_by result fault.new) }
    ensures kept { result ≢ 0 → handle.new ≡ handle.old }
    ensures quiet { result ≡ 0 → fault.new ≡ fault.old }
{
    match mount_kept(alloc, image, how) {
        Ok(mounted) => {
            let _ = mem::replace(handle, Handle::of(mounted)).into_box(alloc);
            OK
        }
        Err(told) => tell(told, fault),
    }
}

/// Drops the mount of a handle, if it has one.
pub fn close(alloc: Global, handle: &mut Handle) -> u32
    ensures closed { handle.new.is_open ≡ false }
    ensures done { result ≡ 0 }
{
    let _ = take(alloc, handle);
    OK
}

/// The number that a path leads to. Symlinks are not followed.
///
/// # Errors
/// 10 to 12: the path leads to nothing. 34: the handle is closed.
pub fn find(
    alloc: Global,
    handle: &mut Handle,
    path: &[u8],
    number: &mut u32,
    fault: &mut Fault,
) -> u32
    ensures open { result ≡ 0 → handle.old.is_open ≡ true }
    ensures done { result ≡ 0 → walk.find handle.old.value.state path.now ≡ Ok number.new }
    ensures closed { handle.old.is_open ≡ false → result ≡ 34 }
    ensures refused { result ≢ 0 → handle.old.is_open ≡ true
        → LeadsNowhere handle.old.value.state path.now (told_by result fault.new) }
    ensures stays { StaysAs handle.old handle.new }
    ensures kept { result ≢ 0 → number.new ≡ number.old }
    ensures quiet { result ≡ 0 → fault.new ≡ fault.old }
    ensures untold { handle.old.is_open ≡ false → fault.new ≡ fault.old }
{
    let Some(mounted) = take(alloc, handle) else {
        return CLOSED;
    };
    let found = mounted.find(path);
    *handle = Handle::of(mounted);
    match found {
        Ok(it) => {
            *number = it;
            OK
        }
        Err(why) => tell(find_told(why), fault),
    }
}

/// The object of a number.
///
/// # Errors
/// 11: there is none. 34: the handle is closed.
pub fn object(alloc: Global, handle: &mut Handle, number: u32, row: &mut Stat) -> u32
    ensures open { result ≡ 0 → handle.old.is_open ≡ true }
    ensures done { result ≡ 0 → IsObjectOf handle.old.value.state number row.new }
    ensures closed { handle.old.is_open ≡ false → result ≡ 34 }
    ensures refused { result ≢ 0 → handle.old.is_open ≡ true
        → (result ≡ 11) × LacksObject handle.old.value.state number }
    ensures stays { StaysAs handle.old handle.new }
    ensures kept { result ≢ 0 → row.new ≡ row.old }
{
    let Some(mounted) = take(alloc, handle) else {
        return CLOSED;
    };
    let seen = mounted.object(number);
    *handle = Handle::of(mounted);
    match seen {
        Some(object) => {
            *row = stat_row(number, object);
            OK
        }
        None => ABSENT,
    }
}

/// The bytes of a regular file or a symlink from an offset on, as many as there is room for; none
/// of what is neither of the two.
///
/// # Errors
/// 34: the handle is closed. `out` and `got` are then as they were.
pub fn read_kept(
    alloc: Global,
    handle: &mut Handle,
    place: Place,
    out: &mut [u8],
    got: &mut usize,
) -> u32
    ensures open { result ≡ 0 → handle.old.is_open ≡ true }
    ensures done { result ≡ 0
        → ReadsAt handle.old.value.state place.number place.offset out.old out.new got.new }
    ensures closed { handle.old.is_open ≡ false → result ≡ 34 }
    ensures no_other { result ≢ 0 → handle.old.is_open ≡ false }
    ensures stays { StaysAs handle.old handle.new }
    ensures kept { result ≢ 0 → out.new ≡ out.old }
    ensures got_kept { result ≢ 0 → got.new ≡ got.old }
{
    let Some(mounted) = take(alloc, handle) else {
        return CLOSED;
    };
    *got = mounted.read_at(place.number, place.offset, out);
    *handle = Handle::of(mounted);
    OK
}
