//! What an index shows, of a tree and after steps.

use crate::checks::{equal, equal_at};
use crate::steps::lines::answer;
use crate::steps::taking::take;
use crate::steps::trees::{index_of, one_number_left, small};
use jmount::Kind;
use jsteps::{Index, with_permissions};
use std::alloc::Global;
use std::process::Abort;
use std::test::Fail;

/// Numbers, each with its object's kind, mode and size, and its greatest version.
fn shown() -> &'static [(u32, Option<(Kind, u32, u32)>, u32)] {
    &[
        (1, Some((Kind::Directory, 0o040755, 0)), 7),
        (2, Some((Kind::Regular, 0o100644, 10)), 1),
        (6, Some((Kind::Directory, 0o040755, 0)), 1),
        (7, Some((Kind::Symlink, 0o120777, 3)), 1),
        (9, Some((Kind::Directory, 0o040755, 0)), 1),
        (57, None, 0),
    ]
}

fn are_shown(rt: &impl Abort, index: &Index) {
    for &(ino, object, top) in shown() {
        let found = index.object(ino).map(|o| (o.kind, o.mode, o.size));
        equal_at(rt, found, object, ino);
        equal_at(rt, index.top(ino), top, ino);
    }
}

#[test]
fn what_an_index_shows(rt: HostRuntime) -> Result<(), Fail> {
    let index = index_of(rt.alloc(), small())?;
    are_shown(&rt, &index);
    equal(&rt, index.next(), 58);
    Ok(())
}

/// Lines, each with the number of its steps, an object, what that is then, and its greatest
/// version.
fn changes() -> &'static [(&'static str, usize, u32, Option<(u32, u16, u16, u32)>, u32)] {
    &[
        ("write /a 4000 200", 3, 2, Some((0o100644, 3, 4, 4200)), 4),
        ("truncate /a 9", 1, 2, Some((0o100644, 3, 4, 9)), 5),
        ("truncate /a 12", 1, 2, Some((0o100644, 3, 4, 12)), 6),
        ("write /a 4 3", 1, 2, Some((0o100644, 3, 4, 12)), 7),
        ("create /new 600", 2, 58, Some((0o100600, 5, 6, 0)), 1),
        ("symlink /d/l ../new", 2, 59, Some((0o120777, 5, 6, 6)), 1),
        ("link /new /d/new", 1, 58, Some((0o100600, 5, 6, 0)), 1),
        ("rename /d /n/d", 2, 10, Some((0o040755, 3, 4, 0)), 2),
        ("remove /n/d/new", 1, 3, Some((0o040755, 3, 4, 0)), 5),
        (
            "mkdir /n/d/e/g/deep 755",
            2,
            60,
            Some((0o040755, 5, 6, 0)),
            1,
        ),
        ("remove /q", 1, 57, None, 0),
    ]
}

fn change(rt: &impl Abort, alloc: Global, index: &mut Index) -> Result<(), Fail> {
    for &(line, count, ino, object, top) in changes() {
        equal_at(rt, take(alloc, index, line)?, count, line);
        let found = index.object(ino).map(|o| (o.mode, o.uid, o.gid, o.size));
        equal_at(rt, found, object, line);
        equal_at(rt, index.top(ino), top, line);
    }
    Ok(())
}

#[test]
fn what_steps_leave(rt: HostRuntime) -> Result<(), Fail> {
    let mut index = index_of(rt.alloc(), small())?;
    change(&rt, rt.alloc(), &mut index)?;
    equal(&rt, index.next(), 61);
    equal(&rt, index.top(1), 10);
    let times = index.object(2).map(|o| (o.atime, o.mtime, o.ctime));
    equal(&rt, times, Some((1, 7, 7)));
    Ok(())
}

/// The same for lines of attributes, with an object's mode and size.
fn attributes() -> &'static [(&'static str, usize, u32, u32, u32, u32)] {
    &[
        ("attr /a 600", 1, 2, 0o100600, 10, 2),
        ("attr /d 7711", 1, 3, 0o047711, 0, 3),
        ("attr / 700", 1, 1, 0o040700, 0, 8),
        ("mkdir /x 755", 2, 1, 0o040700, 0, 9),
        ("attr /x 0", 1, 58, 0o040000, 0, 2),
    ]
}

fn set_attributes(rt: &impl Abort, alloc: Global, index: &mut Index) -> Result<(), Fail> {
    for &(line, count, ino, mode, size, top) in attributes() {
        equal_at(rt, take(alloc, index, line)?, count, line);
        let found = index.object(ino).map(|o| (o.mode, o.size));
        equal_at(rt, found, Some((mode, size)), line);
        equal_at(rt, index.top(ino), top, line);
    }
    Ok(())
}

/// Objects that got attributes have their owners and times.
fn are_set(rt: &impl Abort, index: &Index) {
    for ino in [1, 2, 3, 58] {
        let found = index
            .object(ino)
            .map(|o| (o.uid, o.gid, o.atime, o.mtime, o.ctime));
        equal_at(rt, found, Some((5, 6, 1, 2, 7)), ino);
    }
}

#[test]
fn what_attributes_leave(rt: HostRuntime) -> Result<(), Fail> {
    let mut index = index_of(rt.alloc(), small())?;
    set_attributes(&rt, rt.alloc(), &mut index)?;
    are_set(&rt, &index);
    equal(
        &rt,
        index.object(4).map(|o| (o.mode, o.uid, o.ctime)),
        Some((0o040755, 3, 2)),
    );
    Ok(())
}

/// Lines of two steps, each with the object that it makes, and its mode and size.
fn devices() -> &'static [(&'static str, u32, u32, u32)] {
    &[
        ("char /x 600 866:411233", 58, 0o020600, 0),
        ("block /d/y 7777 8:0", 59, 0o067777, 0),
        ("file /z 644 300", 60, 0o100644, 300),
    ]
}

fn make_devices(rt: &impl Abort, alloc: Global, index: &mut Index) -> Result<(), Fail> {
    for &(line, ino, mode, size) in devices() {
        equal_at(rt, take(alloc, index, line)?, 2, line);
        let found = index.object(ino).map(|o| (o.mode, o.size));
        equal_at(rt, found, Some((mode, size)), line);
    }
    Ok(())
}

/// A device has no bytes, whatever its node has.
#[test]
fn what_devices_leave(rt: HostRuntime) -> Result<(), Fail> {
    let mut index = index_of(rt.alloc(), small())?;
    make_devices(&rt, rt.alloc(), &mut index)
}

/// Modes, permission bits, and the modes that have them.
fn modes() -> &'static [(u32, u32, u32)] {
    &[
        (0o100644, 0o600, 0o100600),
        (0o047777, 0, 0o040000),
        (0, 0o10777, 0o777),
        (u32::MAX, 0o7776, u32::MAX - 1),
    ]
}

#[test]
fn other_permission_bits(rt: HostRuntime) {
    for &(mode, permissions, wanted) in modes() {
        equal_at(&rt, with_permissions(mode, permissions), wanted, mode);
    }
}

/// Lines that are taken, each with the number of its steps, and a next one with its answer.
fn names() -> &'static [(&'static str, usize, &'static str, &'static str)] {
    &[
        ("mkdir /m 755", 2, "remove /m", "clear 1 m"),
        ("create /m/b 600", 2, "remove /m", "O7 NotEmpty"),
        ("create /m/a 600", 2, "remove /m/a", "clear 58 a"),
        ("remove /m/b", 1, "remove /m", "O7 NotEmpty"),
        ("link /a /m/c", 1, "link /a /m/a", "O5 Exists"),
        ("remove /m/a", 1, "remove /m/b", "O3 NotFound"),
        ("rename /m/c /m/a", 2, "remove /m/c", "O3 NotFound"),
        ("remove /m/a", 1, "remove /m", "clear 1 m"),
        ("link /a /m/c", 1, "remove /m/c", "clear 58 c"),
    ]
}

/// The operation of a line has this answer.
fn answers(
    rt: &impl Abort,
    alloc: Global,
    index: &Index,
    line: &str,
    wanted: &str,
) -> Result<(), Fail> {
    let found = answer(alloc, index, line)?;
    equal_at(rt, found.as_str(), wanted, line);
    Ok(())
}

fn take_names(rt: &impl Abort, alloc: Global, index: &mut Index) -> Result<(), Fail> {
    for &(line, count, next, wanted) in names() {
        equal_at(rt, take(alloc, index, line)?, count, line);
        answers(rt, alloc, index, next, wanted)?;
    }
    Ok(())
}

#[test]
fn what_names_leave(rt: HostRuntime) -> Result<(), Fail> {
    let mut index = index_of(rt.alloc(), small())?;
    take_names(&rt, rt.alloc(), &mut index)
}

fn after_the_last() -> &'static [(&'static str, &'static str)] {
    &[
        ("create /x 644", "O12 Exhausted"),
        ("mkdir /y/x 755", "O12 Exhausted"),
        ("link /z /y/x", "O3 NotFound"),
        ("rename /y /x", "set 1 x 4294967295, clear 1 y"),
        ("rename /y /y/x", "O8 IntoItself"),
    ]
}

fn refuse_numbers(rt: &impl Abort, alloc: Global, index: &Index) -> Result<(), Fail> {
    for &(line, wanted) in after_the_last() {
        answers(rt, alloc, index, line, wanted)?;
    }
    Ok(())
}

#[test]
fn what_the_last_number_leaves(rt: HostRuntime) -> Result<(), Fail> {
    let alloc = rt.alloc();
    let mut index = index_of(alloc, one_number_left())?;
    equal(&rt, take(alloc, &mut index, "mkdir /y 755")?, 2);
    equal(&rt, index.next(), 4_294_967_296);
    equal(&rt, index.top(u32::MAX), 1);
    refuse_numbers(&rt, alloc, &index)
}
