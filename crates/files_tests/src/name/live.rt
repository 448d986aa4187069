//! Which names stand, and in what order they are given.

use crate::checks::{expect, expect_at};
use crate::name::entries::{Live, add, are_all, cut_entry};
use jname::{NameFault, Names};
use std::alloc::Global;
use std::process::Abort;
use test_support::entry;

/// The versions and numbers of the two entries of a name that stood for 57 and was removed, in
/// either order.
fn orders() -> &'static [(u32, u32, u32, u32)] {
    &[(1, 57, 2, 0), (2, 0, 1, 57)]
}

/// The names of a directory with two entries of the name `q`.
fn of_two(
    rt: &impl Abort,
    alloc: Global,
    (version, ino, later, then): (u32, u32, u32, u32),
) -> Names<'static> {
    let mut names = Names::new(alloc);
    add(rt, &mut names, &entry(1, version, ino, b"q"));
    add(rt, &mut names, &entry(1, later, then, b"q"));
    names
}

#[test]
fn a_removed_name_is_gone(rt: HostRuntime) {
    for &order in orders() {
        let names = of_two(&rt, rt.alloc(), order);
        expect(&rt, names.get(1, b"q").is_none());
        expect(&rt, are_all(&names, &[]));
        expect(&rt, names.of(1).next().is_none());
        expect(&rt, names.highest(1) == Some(2));
    }
}

#[test]
fn a_removed_name_is_made_again(rt: HostRuntime) {
    for &order in orders() {
        let mut names = of_two(&rt, rt.alloc(), order);
        add(&rt, &mut names, &entry(1, 3, 58, b"q"));
        expect(&rt, names.get(1, b"q") == Some(58));
        expect(&rt, names.highest(1) == Some(3));
    }
}

/// Versions, the numbers that they say, and what then stands.
fn versions() -> &'static [(u32, u32, u32)] {
    &[
        (0, 2, 2),
        (7, 3, 3),
        (3, 4, 3),
        (0xFFFF_FFFF, 5, 5),
        (8, 6, 5),
    ]
}

#[test]
fn the_highest_version_counts(rt: HostRuntime) {
    let mut names = Names::new(rt.alloc());
    expect(&rt, names.highest(1).is_none());
    for &(version, ino, live) in versions() {
        add(&rt, &mut names, &entry(1, version, ino, b"a"));
        expect_at(&rt, names.get(1, b"a") == Some(live), version);
    }
    expect(&rt, names.highest(1) == Some(0xFFFF_FFFF));
}

/// Names of directories, and the numbers that they stand for.
fn names_apart() -> &'static [(u32, &'static [u8], Option<u32>)] {
    &[
        (1, b"a", Some(3)),
        (2, b"a", Some(9)),
        (2, b"b", None),
        (3, b"a", None),
    ]
}

/// Directories, and their highest versions.
fn highest_apart() -> &'static [(u32, Option<u32>)] {
    &[(1, Some(7)), (2, Some(0)), (3, None)]
}

#[test]
fn directories_are_apart(rt: HostRuntime) {
    let mut names = Names::new(rt.alloc());
    add(&rt, &mut names, &entry(1, 7, 3, b"a"));
    add(&rt, &mut names, &entry(2, 0, 9, b"a"));
    for &(dir, name, ino) in names_apart() {
        expect_at(&rt, names.get(dir, name) == ino, dir);
    }
    for &(dir, highest) in highest_apart() {
        expect_at(&rt, names.highest(dir) == highest, dir);
    }
}

/// The names of the directory 9 in byte order.
fn in_order() -> &'static [Live] {
    &[
        Live(9, b"\0", 4),
        Live(9, b"/", 6),
        Live(9, b"a", 8),
        Live(9, b"a\0", 3),
        Live(9, b"aa", 7),
        Live(9, b"b", 5),
        Live(9, b"\xFF", 2),
    ]
}

/// The same in the order of their numbers, each of which is its version.
fn as_added() -> &'static [Live] {
    &[
        Live(9, b"\xFF", 2),
        Live(9, b"a\0", 3),
        Live(9, b"\0", 4),
        Live(9, b"b", 5),
        Live(9, b"/", 6),
        Live(9, b"aa", 7),
        Live(9, b"a", 8),
    ]
}

/// The directory 9 holds these names, and one that was removed.
fn directory_9(rt: &impl Abort, alloc: Global) -> Names<'static> {
    let mut names = Names::new(alloc);
    for &Live(directory, name, ino) in as_added() {
        add(rt, &mut names, &entry(directory, ino, ino, name));
    }
    add(rt, &mut names, &entry(9, 9, 0, b"ab"));
    names
}

#[test]
fn names_are_in_byte_order(rt: HostRuntime) {
    let names = directory_9(&rt, rt.alloc());
    let mut of = names.of(9);
    for &Live(_, name, ino) in in_order() {
        expect_at(&rt, of.next() == Some((name, ino)), ino);
    }
    expect(&rt, of.next().is_none());
}

/// Names of other directories, of version 1.
fn others() -> &'static [Live] {
    &[
        Live(10, b"a", 11),
        Live(0xFFFF_FFFF, b"a", 13),
        Live(2, b"z", 12),
    ]
}

#[test]
fn directories_are_in_order(rt: HostRuntime) {
    let mut names = directory_9(&rt, rt.alloc());
    for &Live(directory, name, ino) in others() {
        add(&rt, &mut names, &entry(directory, 1, ino, name));
    }
    let mut all = names.all();
    expect(&rt, all.next() == Some((2, b"z".as_slice(), 12)));
    expect(&rt, all.by_ref().take(7).count() == 7);
    expect(&rt, all.next() == Some((10, b"a".as_slice(), 11)));
    expect(&rt, all.next() == Some((0xFFFF_FFFF, b"a".as_slice(), 13)));
    expect(&rt, all.next().is_none());
}

/// A name of which an image lacks the last two bytes.
#[test]
fn missing_bytes_count_as_erased(rt: HostRuntime) {
    let mut names = Names::new(rt.alloc());
    let cut = cut_entry(1, 4, 70, b"ab", 2);
    add(&rt, &mut names, &entry(1, 3, 71, b"ab\xFF\xFF"));
    add(&rt, &mut names, &cut);
    add(&rt, &mut names, &cut);
    let refused = names.add(&entry(1, 4, 72, b"ab\xFF\xFF"));
    expect(&rt, refused == Err(NameFault::Clash));
    add(&rt, &mut names, &entry(1, 4, 73, b"ab\xFF"));
    expect(
        &rt,
        are_all(
            &names,
            &[Live(1, b"ab\xFF", 73), Live(1, b"ab\xFF\xFF", 70)],
        ),
    );
}

/// Likewise where that name is the first.
#[test]
fn missing_bytes_of_the_first_entry(rt: HostRuntime) {
    let mut names = Names::new(rt.alloc());
    add(&rt, &mut names, &cut_entry(1, 4, 70, b"ab", 2));
    let refused = names.add(&entry(1, 4, 72, b"ab\xFF\xFF"));
    expect(&rt, refused == Err(NameFault::Clash));
    expect(&rt, names.get(1, b"ab\xFF\xFF") == Some(70));
}
