//! Entries of one directory, name and version with unlike contents.

use crate::checks::{expect, expect_at};
use crate::name::entries::{Live, add, are_all};
use jname::{NameFault, Names};
use jnode::{Dirent, Part};
use test_support::entry;

/// An entry of the name `q` in the root, of version 5.
fn entry_of(ino: u32, mctime: u32, kind: u8) -> Dirent<'static> {
    Dirent {
        pino: 1,
        version: 5,
        ino,
        mctime,
        kind,
        name: Part::new(b"q", 0),
    }
}

/// Numbers, times and kinds of entries that clash.
fn unequal() -> &'static [(u32, u32, u8)] {
    &[(58, 6, 8), (0, 6, 8), (57, 7, 8), (57, 6, 4)]
}

#[test]
fn unequal_contents_clash(rt: HostRuntime) {
    let mut names = Names::new(rt.alloc());
    add(&rt, &mut names, &entry_of(57, 6, 8));
    add(&rt, &mut names, &entry_of(57, 6, 8));
    for &(ino, mctime, kind) in unequal() {
        let refused = names.add(&entry_of(ino, mctime, kind));
        expect_at(&rt, refused == Err(NameFault::Clash), ino);
        expect(&rt, are_all(&names, &[Live(1, b"q", 57)]));
    }
}

/// Entries of which none clash: their directories, versions, numbers and names.
fn apart() -> &'static [(u32, u32, u32, &'static [u8])] {
    &[
        (1, 5, 57, b"q"),
        (2, 5, 60, b"q"),
        (1, 5, 61, b"r"),
        (1, 6, 0, b"q"),
    ]
}

/// Another directory, name or version is no clash, and what an older version says still counts.
#[test]
fn clashes_of_older_versions(rt: HostRuntime) {
    let mut names = Names::new(rt.alloc());
    for &(pino, version, ino, name) in apart() {
        add(&rt, &mut names, &entry(pino, version, ino, name));
    }
    for (version, ino) in [(6, 57), (5, 58)] {
        let refused = names.add(&entry(1, version, ino, b"q"));
        expect_at(&rt, refused == Err(NameFault::Clash), version);
    }
    expect(
        &rt,
        are_all(&names, &[Live(1, b"r", 61), Live(2, b"q", 60)]),
    );
}

fn faults() -> &'static [(NameFault, &'static str)] {
    &[
        (NameFault::Clash, "E1 Clash"),
        (NameFault::OutOfMemory, "E2 OutOfMemory"),
    ]
}

#[test]
fn faults_have_their_texts(rt: HostRuntime) -> Result<(), std::test::Fail> {
    for &(fault, text) in faults() {
        expect(&rt, format!(in rt.alloc(); "{fault}")?.as_str() == text);
    }
    Ok(())
}
