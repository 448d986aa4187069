//! The steps of an operation.

ghost use Rattle.std.specs.Prelude.{◌≡◌, ◌==◌, ◌||◌, ◌&&◌, ◌≤◌, ◌+◌, ◌++◌, ℕ, false, nat_lt, length, [], ◌∷◌, IfOk, IfErr, IsTrue, Ok, Err, ◌≢◌};
ghost use Rattle.std.specs.List.{list_any};
ghost use Rattle.jmount.specs.Shown.{top_at};
ghost use Rattle.jmount.specs.Tree.{greatest_target};
ghost use Rattle.jscan.specs.Pages.{IsPage, page_size};
ghost use Rattle.jsteps.specs.Families.{file_op, makes_empty, makes_special, is_of_bytes};
ghost use Rattle.jsteps.specs.Planning.{most_steps, bytes_steps};
ghost use Rattle.jsteps.specs.Refusals.{planned, planned_by, greatest_size};
ghost use Rattle.jsteps.specs.Tests.{GivesPlan, made_plan, new_of, full_by, spent_by, into_itself_at};
ghost use Rattle.jsteps.specs.declared.fault.OpFault.TheVariants as refused;
ghost use Rattle.jsteps.specs.declared.op.Op.TheVariants as op;
ghost use Rattle.jsteps.specs.declared.step.Step.TheVariants as step;

use crate::device::{DeviceKind, DeviceNumber};
use crate::fault::OpFault;
use crate::index::Index;
use crate::op::{Attributes, Op};
use crate::puts::{first_len, push_resize, push_write};
use crate::refusal::{
    is_taken, tests_of_attributes, tests_of_file, tests_of_name, tests_of_new, tests_of_new_file,
    tests_of_removed, tests_of_removed_if, tests_of_replaced,
};
use crate::site::{end_of, is_one_entry, look_up, look_up_both, meets_above, reach};
use crate::step::Step;
use crate::text::Text;
use flashbase::Part;
use jmount::{DIRECTORY_BITS, GREATEST_TARGET};
use jscan::Page;
use std::alloc::{AllocError, Global};

/// The greatest size of a file.
const GREATEST: u32 = 2147483647;

/// All permission bits.
const PERMISSIONS: u32 = 0o7777;

/// Whether a number has fewer versions left than these.
fn is_spent(index: &Index, ino: u32, count: usize) -> bool
    ensures { result ≡ nat_lt 0xFFFFFFFF (top_at index.now.tops ino + count) }
{
    is_past(index.top(ino), count)
}

/// Whether so many versions more are more than 32 bits hold.
fn is_past(highest: u32, count: usize) -> bool
    ensures { result ≡ nat_lt 0xFFFFFFFF (highest + count) }
{
    count > (u32::MAX - highest) as usize
}

fn set_name<'a>(time: u32, directory: u32, name: &'a [u8], ino: u32) -> Step<'a>
    ensures { result ≡ step.SetName time directory name.now ino }
{
    Step::SetName {
        time,
        directory,
        name: Part::new(name, 0),
        ino,
    }
}

fn clear_name<'a>(time: u32, directory: u32, name: &'a [u8]) -> Step<'a>
    ensures { result ≡ step.ClearName time directory name.now }
{
    Step::ClearName {
        time,
        directory,
        name: Part::new(name, 0),
    }
}

/// When an object is made, with which permission bits of its mode, and its owners.
#[derive(Clone, Copy)]
struct Origin {
    time: u32,
    mode: u32,
    uid: u16,
    gid: u16,
}

impl Origin {
    fn of(time: u32, mode: u32, uid: u16, gid: u16) -> Origin
        ensures { result ≡ record { time = time; mode = mode; uid = uid; gid = gid } }
    {
        Origin {
            time,
            mode,
            uid,
            gid,
        }
    }
}

/// An object of a kind that these mode bits say.
fn make_object<'a>(kind: u32, origin: Origin, target: &'a [u8]) -> Step<'a>
    requires kind { kind ≤ 0o170000 }
    requires mode { origin.mode ≤ 0o7777 }
    ensures { result ≡ step.MakeObject origin.time (kind + origin.mode) origin.uid origin.gid
        target.now }
{
    Step::MakeObject {
        time: origin.time,
        mode: kind + origin.mode,
        uid: origin.uid,
        gid: origin.gid,
        target: Part::new(target, 0),
    }
}

/// A step alone.
fn one<'a>(alloc: Global, alone: Step<'a>) -> Result<Vec<Step<'a>>, AllocError>
    ensures { IfOk result (λ steps. steps.items ≡ alone.entry ∷ []) }
{
    let mut steps = Vec::with_capacity(alloc, 1)?;
    steps.push(alone)?;
    Ok(steps)
}

/// Two steps.
fn two<'a>(alloc: Global, first: Step<'a>, then: Step<'a>) -> Result<Vec<Step<'a>>, AllocError>
    ensures { IfOk result (λ steps. steps.items ≡ first.entry ∷ then.entry ∷ []) }
{
    let mut steps = Vec::with_capacity(alloc, 2)?;
    steps.push(first)?;
    steps.push(then)?;
    Ok(steps)
}

/// A name is removed.
fn remove<'a>(
    alloc: Global,
    index: &Index,
    time: u32,
    path: &'a [u8],
) -> Result<Vec<Step<'a>>, OpFault>
    ensures { (page : ℕ) → GivesPlan result (planned_by page index.now (op.Remove time path.now)) }
{
    let Some(site) = look_up(alloc, index, path)? else {
        return Err(OpFault::BadPath);
    };
    let directory = end_of(site.above);
    if let Some(fault) = tests_of_removed(index, &site).first() {
        return Err(fault);
    }
    if is_spent(index, directory, 1) {
        return Err(OpFault::Exhausted);
    }
    Ok(one(alloc, clear_name(time, directory, site.last))?)
}

/// A name is removed where it is there.
fn remove_if<'a>(
    alloc: Global,
    index: &Index,
    time: u32,
    path: &'a [u8],
) -> Result<Vec<Step<'a>>, OpFault>
    ensures { (page : ℕ)
        → GivesPlan result (planned_by page index.now (op.RemoveIf time path.now)) }
{
    let Some(site) = look_up(alloc, index, path)? else {
        return Err(OpFault::BadPath);
    };
    let directory = end_of(site.above);
    if let Some(fault) = tests_of_removed_if(index, &site).first() {
        return Err(fault);
    }
    if site.number.is_none() {
        return Ok(Vec::new(alloc));
    }
    if is_spent(index, directory, 1) {
        return Err(OpFault::Exhausted);
    }
    Ok(one(alloc, clear_name(time, directory, site.last))?)
}

/// A regular file gets another size.
fn truncate<'a>(
    alloc: Global,
    index: &Index,
    time: u32,
    path: &'a [u8],
    size: u32,
) -> Result<Vec<Step<'a>>, OpFault>
    ensures { (page : ℕ)
        → GivesPlan result (planned_by page index.now (op.Truncate time path.now size)) }
{
    let Some(site) = look_up(alloc, index, path)? else {
        return Err(OpFault::BadPath);
    };
    let ino = site.number.unwrap_or(0);
    let old = index.size(site.number);
    let highest = index.top(ino);
    if let Some(fault) = tests_of_file(index, &site, size > GREATEST).first() {
        return Err(fault);
    }
    let mut steps = Vec::new(alloc);
    push_resize(&mut steps, time, ino, old, size)?;
    if is_past(highest, steps.len()) {
        return Err(OpFault::Exhausted);
    }
    Ok(steps)
}

/// Whether bytes would end past the greatest size.
fn is_too_large(offset: u32, bytes: &[u8]) -> bool
    ensures { result
        ≡ (nat_lt 0 (length bytes.now) && nat_lt greatest_size (offset + length bytes.now)) }
{
    !bytes.is_empty() && offset as usize + bytes.len() > GREATEST as usize
}

/// Bytes of a regular file.
fn write<'a>(
    alloc: Global,
    page: u32,
    index: &Index,
    time: u32,
    path: &'a Text<'_>,
    offset: u32,
    bytes: &'a Text<'_>,
) -> Result<Vec<Step<'a>>, OpFault>
    requires { IsPage page }
    ensures { GivesPlan result
        (planned_by page index.now (op.Write time path.now offset bytes.now)) }
{
    let bytes = bytes.as_slice();
    let Some(site) = look_up(alloc, index, path.as_slice())? else {
        return Err(OpFault::BadPath);
    };
    let ino = site.number.unwrap_or(0);
    let old = index.size(site.number);
    let highest = index.top(ino);
    if let Some(fault) = tests_of_file(index, &site, is_too_large(offset, bytes)).first() {
        return Err(fault);
    }
    let mut steps = Vec::new(alloc);
    push_write(&mut steps, page, time, ino, old, offset, bytes)?;
    if is_past(highest, steps.len()) {
        return Err(OpFault::Exhausted);
    }
    Ok(steps)
}

/// A further name.
fn link<'a>(
    alloc: Global,
    index: &Index,
    time: u32,
    old: &'a [u8],
    new: &'a [u8],
) -> Result<Vec<Step<'a>>, OpFault>
    ensures { (page : ℕ)
        → GivesPlan result (planned_by page index.now (op.Link time old.now new.now)) }
{
    let Some((from, to)) = look_up_both(alloc, index, old, new)? else {
        return Err(OpFault::BadPath);
    };
    let is_directory = index.has_bits(from.number, DIRECTORY_BITS);
    let ino = from.number.unwrap_or(0);
    let directory = end_of(to.above);
    if let Some(fault) = tests_of_name(index, &from, &to, is_directory, false).first() {
        return Err(fault);
    }
    if is_spent(index, directory, 1) {
        return Err(OpFault::Exhausted);
    }
    Ok(one(alloc, set_name(time, directory, to.last, ino))?)
}

/// Whether no version is left for the new name, or after it for the old one.
fn are_spent(index: &Index, directory: u32, left: u32) -> bool
    ensures { result ≡ spent_by index.now directory left }
{
    let count = if left == directory { 2 } else { 1 };
    is_spent(index, directory, 1) || is_spent(index, left, count)
}

/// Whether a directory of this number would go into itself.
fn is_into_itself(
    alloc: Global,
    index: &Index,
    number: Option<u32>,
    new: &[u8],
) -> Result<bool, AllocError>
    ensures { IfOk result (λ is_into. is_into ≡ into_itself_at index.now.tree number new.now) }
{
    if index.has_bits(number, DIRECTORY_BITS) {
        return meets_above(alloc, index, new, number.unwrap_or(0));
    }
    Ok(false)
}

/// Another name.
fn rename<'a>(
    alloc: Global,
    index: &Index,
    time: u32,
    old: &'a [u8],
    new: &'a [u8],
) -> Result<Vec<Step<'a>>, OpFault>
    ensures { (page : ℕ)
        → GivesPlan result (planned_by page index.now (op.Rename time old.now new.now)) }
{
    let Some((from, to)) = look_up_both(alloc, index, old, new)? else {
        return Err(OpFault::BadPath);
    };
    let ino = from.number.unwrap_or(0);
    let is_into_itself = is_into_itself(alloc, index, from.number, new)?;
    let left = end_of(from.above);
    let directory = end_of(to.above);
    if let Some(fault) = tests_of_name(index, &from, &to, false, is_into_itself).first() {
        return Err(fault);
    }
    if are_spent(index, directory, left) {
        return Err(OpFault::Exhausted);
    }
    let set = set_name(time, directory, to.last, ino);
    let clear = clear_name(time, left, from.last);
    Ok(two(alloc, set, clear)?)
}

/// Another name, in the place of what it names.
fn replace<'a>(
    alloc: Global,
    index: &Index,
    time: u32,
    old: &'a [u8],
    new: &'a [u8],
) -> Result<Vec<Step<'a>>, OpFault>
    ensures { (page : ℕ)
        → GivesPlan result (planned_by page index.now (op.Replace time old.now new.now)) }
{
    let Some((from, to)) = look_up_both(alloc, index, old, new)? else {
        return Err(OpFault::BadPath);
    };
    let ino = from.number.unwrap_or(0);
    let left = end_of(from.above);
    let directory = end_of(to.above);
    if let Some(fault) = tests_of_replaced(index, &from, &to).first() {
        return Err(fault);
    }
    if is_one_entry(&from, &to) {
        return Ok(Vec::new(alloc));
    }
    if are_spent(index, directory, left) {
        return Err(OpFault::Exhausted);
    }
    let named = set_name(time, directory, to.last, ino);
    let cleared = clear_name(time, left, from.last);
    Ok(two(alloc, named, cleared)?)
}

/// A new object.
fn make<'a>(
    alloc: Global,
    index: &Index,
    path: &'a [u8],
    kind: u32,
    origin: Origin,
    target: &'a [u8],
    is_bad_target: bool,
) -> Result<Vec<Step<'a>>, OpFault>
    requires { kind ≤ 0o170000 }
    ensures { GivesPlan result (made_plan index.now origin.time path.now
        (new_of kind origin.mode origin.uid origin.gid target.now) is_bad_target) }
{
    let Some(site) = look_up(alloc, index, path)? else {
        return Err(OpFault::BadPath);
    };
    let directory = end_of(site.above);
    let is_bad_mode = origin.mode > PERMISSIONS;
    if let Some(fault) = tests_of_new(index, &site, is_bad_mode, is_bad_target).first() {
        return Err(fault);
    }
    if is_full(index, directory) {
        return Err(OpFault::Exhausted);
    }
    let made = make_object(kind, origin, target);
    let set = set_name(origin.time, directory, site.last, index.next() as u32);
    Ok(two(alloc, made, set)?)
}

/// Whether there is no number for a new object, or no version for its name. The object's own next
/// version is 2.
fn is_full(index: &Index, directory: u32) -> bool
    ensures { result ≡ full_by index.now directory }
{
    let next = index.next();
    next > u32::MAX as u64 || u64::from(directory) != next && is_spent(index, directory, 1)
}

/// A new file with bytes, in the place of what its name stands for or under a new name.
fn file<'a>(
    alloc: Global,
    page: u32,
    index: &Index,
    path: &'a Text<'_>,
    origin: Origin,
    bytes: &'a Text<'_>,
    is_over: bool,
) -> Result<Vec<Step<'a>>, OpFault>
    requires { IsPage page }
    ensures { GivesPlan result
        (planned_by page index.now
        (file_op is_over origin.time path.now origin.mode origin.uid origin.gid bytes.now)) }
{
    let bytes = bytes.as_slice();
    let Some(site) = look_up(alloc, index, path.as_slice())? else {
        return Err(OpFault::BadPath);
    };
    let directory = end_of(site.above);
    let is_taken = is_taken(index, &site, is_over);
    let is_large = bytes.len() > GREATEST as usize;
    let is_bad_mode = origin.mode > PERMISSIONS;
    if let Some(fault) = tests_of_new_file(index, &site, is_taken, is_large, is_bad_mode).first() {
        return Err(fault);
    }
    if is_full(index, directory) {
        return Err(OpFault::Exhausted);
    }
    let next = index.next() as u32;
    let set = set_name(origin.time, directory, site.last, next);
    Ok(make_named(alloc, page, next, origin, bytes, set)?)
}

/// A new file with bytes, which is named last, by this step.
fn make_named<'a>(
    alloc: Global,
    page: u32,
    ino: u32,
    origin: Origin,
    bytes: &'a [u8],
    set: Step<'a>,
) -> Result<Vec<Step<'a>>, AllocError>
    requires page { IsPage page }
    requires mode { origin.mode ≤ 0o7777 }
    requires end { length bytes.now ≤ 2147483647 }
    ensures { IfOk result (λ steps. steps.items ≡ bytes_steps page ino origin.time
        (0o100000 + origin.mode) origin.uid origin.gid bytes.now ++ set.entry ∷ []) }
{
    let len = first_len(page, bytes.len());
    let (first, rest) = bytes.split_at(len);
    let made = make_object(0o100000, origin, first);
    let mut steps = one(alloc, made)?;
    let end = len as u32;
    push_write(&mut steps, page, origin.time, ino, end, end, rest)?;
    steps.push(set)?;
    Ok(steps)
}

/// A new device.
fn device<'a>(
    alloc: Global,
    index: &Index,
    path: &'a [u8],
    kind: DeviceKind,
    origin: Origin,
    number: &'a DeviceNumber,
) -> Result<Vec<Step<'a>>, OpFault>
    ensures { (page : ℕ) → GivesPlan result (planned_by page index.now
        (op.Device origin.time path.now kind origin.mode origin.uid origin.gid number.now)) }
{
    let bits = kind.mode();
    make(alloc, index, path, bits, origin, number.as_slice(), false)
}

/// Whether a symlink may not have this target.
fn is_bad_target(target: &[u8]) -> bool
    ensures { result ≡ ((length target.now == 0) || nat_lt greatest_target (length target.now)
        || list_any (λ b. b == 0) target.now) }
{
    target.is_empty() || target.len() > GREATEST_TARGET || target.contains(&0)
}

/// A new symlink.
fn symlink<'a>(
    alloc: Global,
    index: &Index,
    time: u32,
    path: &'a Text<'_>,
    target: &'a Text<'_>,
    uid: u16,
    gid: u16,
) -> Result<Vec<Step<'a>>, OpFault>
    ensures { (page : ℕ)
        → GivesPlan result
        (planned_by page index.now (op.Symlink time path.now target.now uid gid)) }
{
    let path = path.as_slice();
    let target = target.as_slice();
    let is_bad = is_bad_target(target);
    let origin = Origin {
        time,
        mode: 0o777,
        uid,
        gid,
    };
    make(alloc, index, path, 0o120000, origin, target, is_bad)
}

/// Other attributes.
fn set_attributes<'a>(
    alloc: Global,
    index: &Index,
    time: u32,
    path: &'a [u8],
    attributes: Attributes,
) -> Result<Vec<Step<'a>>, OpFault>
    ensures { (page : ℕ)
        → GivesPlan result (planned_by page index.now (op.SetAttributes time path.now attributes)) }
{
    let Some(site) = reach(alloc, index, path)? else {
        return Err(OpFault::BadPath);
    };
    let ino = site.number.unwrap_or(0);
    let is_bad_mode = attributes.mode > PERMISSIONS;
    if let Some(fault) = tests_of_attributes(index, &site, is_bad_mode).first() {
        return Err(fault);
    }
    if is_spent(index, ino, 1) {
        return Err(OpFault::Exhausted);
    }
    let set = Step::SetAttributes {
        time,
        ino,
        attributes,
    };
    Ok(one(alloc, set)?)
}

/// The plan of an operation that makes an object without data.
fn plan_empty<'a>(alloc: Global, index: &Index, op: &'a Op<'_>) -> Result<Vec<Step<'a>>, OpFault>
    requires { IsTrue (makes_empty op.now) }
    ensures { (page : ℕ) → GivesPlan result (planned_by page index.now op.now) }
{
    let (kind, path, origin) = match op {
        Op::Mkdir {
            time,
            path,
            mode,
            uid,
            gid,
        } => (0o040000, path, Origin::of(*time, *mode, *uid, *gid)),
        Op::Create {
            time,
            path,
            mode,
            uid,
            gid,
        } => (0o100000, path, Origin::of(*time, *mode, *uid, *gid)),
        Op::Fifo {
            time,
            path,
            mode,
            uid,
            gid,
        } => (0o010000, path, Origin::of(*time, *mode, *uid, *gid)),
        Op::Socket {
            time,
            path,
            mode,
            uid,
            gid,
        } => (0o140000, path, Origin::of(*time, *mode, *uid, *gid)),
        _ => unreachable!(),
    };
    let target = b"".as_slice();
    make(alloc, index, path.as_slice(), kind, origin, target, false)
}

/// The plan of an operation that makes an object whose data say what it stands for.
fn plan_special<'a>(alloc: Global, index: &Index, op: &'a Op<'_>) -> Result<Vec<Step<'a>>, OpFault>
    requires { IsTrue (makes_special op.now) }
    ensures { (page : ℕ) → GivesPlan result (planned_by page index.now op.now) }
{
    match op {
        Op::Device {
            time,
            path,
            kind,
            mode,
            uid,
            gid,
            number,
        } => {
            let origin = Origin::of(*time, *mode, *uid, *gid);
            device(alloc, index, path.as_slice(), *kind, origin, number)
        }
        Op::Symlink {
            time,
            path,
            target,
            uid,
            gid,
        } => symlink(alloc, index, *time, path, target, *uid, *gid),
        _ => unreachable!(),
    }
}

/// The plan of an operation on the bytes of a regular file, old or new.
fn plan_bytes<'a>(
    alloc: Global,
    page: u32,
    index: &Index,
    op: &'a Op<'_>,
) -> Result<Vec<Step<'a>>, OpFault>
    requires page { IsPage page }
    requires bytes { IsTrue (is_of_bytes op.now) }
    ensures { GivesPlan result (planned_by page index.now op.now) }
{
    match op {
        Op::File {
            time,
            path,
            mode,
            uid,
            gid,
            bytes,
        } => {
            let origin = Origin::of(*time, *mode, *uid, *gid);
            file(alloc, page, index, path, origin, bytes, false)
        }
        Op::Put {
            time,
            path,
            mode,
            uid,
            gid,
            bytes,
        } => {
            let origin = Origin::of(*time, *mode, *uid, *gid);
            file(alloc, page, index, path, origin, bytes, true)
        }
        Op::Write {
            time,
            path,
            offset,
            bytes,
        } => write(alloc, page, index, *time, path, *offset, bytes),
        Op::Truncate { time, path, size } => truncate(alloc, index, *time, path.as_slice(), *size),
        _ => unreachable!(),
    }
}

/// The plan of an operation under a page.
fn plan_by<'a>(
    alloc: Global,
    page: u32,
    index: &Index,
    op: &'a Op<'_>,
) -> Result<Vec<Step<'a>>, OpFault>
    requires { IsPage page }
    ensures { GivesPlan result (planned_by page index.now op.now) }
{
    match op {
        Op::Mkdir { .. } | Op::Create { .. } | Op::Fifo { .. } | Op::Socket { .. } => {
            plan_empty(alloc, index, op)
        }
        Op::Device { .. } | Op::Symlink { .. } => plan_special(alloc, index, op),
        Op::File { .. } | Op::Put { .. } | Op::Write { .. } | Op::Truncate { .. } => {
            plan_bytes(alloc, page, index, op)
        }
        Op::Link { time, old, new } => link(alloc, index, *time, old.as_slice(), new.as_slice()),
        Op::Remove { time, path } => remove(alloc, index, *time, path.as_slice()),
        Op::RemoveIf { time, path } => remove_if(alloc, index, *time, path.as_slice()),
        Op::Rename { time, old, new } => {
            rename(alloc, index, *time, old.as_slice(), new.as_slice())
        }
        Op::Replace { time, old, new } => {
            replace(alloc, index, *time, old.as_slice(), new.as_slice())
        }
        Op::SetAttributes {
            time,
            path,
            attributes,
        } => { set_attributes(alloc, index, *time, path.as_slice(), *attributes) }
    }
}

/// The steps of an operation, or why it is refused, with bytes cut where a page of this size of the
/// file ends.
///
/// # Errors
/// As those of [`plan`].
pub fn plan_paged<'a>(
    alloc: Global,
    index: &Index,
    op: &'a Op<'_>,
    page: Page,
) -> Result<Vec<Step<'a>>, OpFault>
    ensures ok { IfOk result
        (λ steps. planned_by (page_size page) index.now op.now ≡ Ok steps.items) }
    ensures few { IfOk result (λ steps. length steps.items ≤ most_steps) }
    ensures err { IfErr result (λ fault. fault ≢ refused.OutOfMemory
        → planned_by (page_size page) index.now op.now ≡ Err fault) }
{
    plan_by(alloc, page.size(), index, op)
}

/// The steps of an operation, or why it is refused. Each step is to be written as one node; bytes
/// are cut where a page of 4,096 bytes of the file ends, and borrowed.
///
/// # Errors
/// The first fault that applies, in the order of [`OpFault`], or out of memory in its place.
pub fn plan<'a>(alloc: Global, index: &Index, op: &'a Op<'_>) -> Result<Vec<Step<'a>>, OpFault>
    ensures ok { IfOk result (λ steps. planned index.now op.now ≡ Ok steps.items) }
    ensures few { IfOk result (λ steps. length steps.items ≤ most_steps) }
    ensures err { IfErr result
        (λ fault. fault ≢ refused.OutOfMemory → planned index.now op.now ≡ Err fault) }
{
    plan_paged(alloc, index, op, Page::P4096)
}
