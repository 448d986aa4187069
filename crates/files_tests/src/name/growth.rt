//! A growth that is refused leaves what stood.

use crate::checks::expect;
use crate::name::entries::{Live, are_all, cut_entry};
use jname::{NameFault, Names};
use jnode::Dirent;
use test_support::entry;

/// Adds an entry. Where a growth is refused, nothing changes, and the entry can be added then.
fn add_again(names: &mut Names<'static>, added: &Dirent<'static>, before: &[Live]) -> bool {
    let highest = names.highest(added.pino);
    match names.add(added) {
        Ok(()) => true,
        Err(NameFault::Clash) => false,
        Err(NameFault::OutOfMemory) => {
            are_all(names, before)
                && names.highest(added.pino) == highest
                && names.add(added) == Ok(())
        }
    }
}

/// An entry that is added, by its directory, version, number and name, and the live names before
/// it.
struct Added(u32, u32, u32, &'static [u8], &'static [Live]);

/// What is added in turn.
fn additions() -> &'static [Added] {
    &[
        Added(1, 1, 2, b"a", &[]),
        Added(1, 2, 3, b"b", &[Live(1, b"a", 2)]),
        Added(1, 3, 4, b"a", &[Live(1, b"a", 2), Live(1, b"b", 3)]),
        Added(7, 1, 5, b"c", &[Live(1, b"a", 4), Live(1, b"b", 3)]),
    ]
}

/// What is live then.
fn before_the_last() -> &'static [Live] {
    &[Live(1, b"a", 4), Live(1, b"b", 3), Live(7, b"c", 5)]
}

/// What is live after the last.
fn after() -> &'static [Live] {
    &[
        Live(1, b"a", 4),
        Live(1, b"b", 3),
        Live(7, b"c", 5),
        Live(7, b"d\xFF\xFF\xFF", 6),
    ]
}

#[test]
fn refused_growth_changes_nothing(rt: HostRuntime) {
    let mut names = Names::new(rt.alloc());
    for &Added(pino, version, ino, name, before) in additions() {
        let added = entry(pino, version, ino, name);
        expect(&rt, add_again(&mut names, &added, before));
    }
    let last = cut_entry(7, 9, 6, b"d", 3);
    expect(&rt, add_again(&mut names, &last, before_the_last()));
    expect(&rt, are_all(&names, after()));
}

/// More names than stand in a row.
fn many() -> &'static [Live] {
    &[
        Live(1, b"a", 2),
        Live(1, b"b", 3),
        Live(1, b"c", 4),
        Live(1, b"d", 5),
        Live(1, b"e", 6),
        Live(1, b"f", 7),
        Live(1, b"g", 8),
        Live(1, b"h", 9),
        Live(1, b"i", 10),
        Live(1, b"j", 11),
    ]
}

#[test]
fn refused_growth_of_many_names_changes_nothing(rt: HostRuntime) {
    let mut names = Names::new(rt.alloc());
    let all = many();
    for index in 0..all.len() {
        let Live(pino, name, ino) = all[index];
        let added = entry(pino, ino, ino, name);
        expect(&rt, add_again(&mut names, &added, &all[..index]));
    }
    expect(&rt, are_all(&names, all));
}
