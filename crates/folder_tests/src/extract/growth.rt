//! A growth that is refused is told as such.

ghost use Rattle.std.specs.Prelude.{◌≡◌};

use crate::checks::equal;
use crate::extract::images::{LARGE, PLAIN, image_of};
use byteorder::LittleEndian;
use jextract::{
    Attributes, ExtractFault, FilledFile, Folder, FolderFault, PartFault, Totals, extract,
    extract_part, part_at,
};
use jmount::mount;
use std::alloc::Global;
use test_support::Matcher;

/// A file that keeps nothing.
#[derive(Drop)]
struct Nowhere;

impl FilledFile for Nowhere {
    ghost use Rattle.std.specs.Prelude.{None};

    ghost cells = { λ _. None };

    ghost fault = { λ _. None };

    fn write(&mut self, _bytes: &[u8]) -> Result<(), FolderFault> {
        Ok(())
    }

    fn skip(&mut self, _count: u64) -> Result<(), FolderFault> {
        Ok(())
    }
}

/// Makes all and keeps nothing. It needs no memory.
#[derive(Drop)]
struct Tally {
    calls: u64,
}

impl Tally {
    fn count(&mut self) -> Result<(), FolderFault>
        ensures { result ≡ Ok tt }
    {
        self.calls = self.calls.wrapping_add(1);
        Ok(())
    }
}

impl Folder for Tally {
    type File = Nowhere;

    ghost use Rattle.std.specs.Prelude.{None};

    ghost made = { λ _. None };

    ghost failures = { λ _. record { refused = 0; full = 0 } };

    fn make_directory(&mut self, _path: &str) -> Result<(), FolderFault> {
        self.count()
    }

    fn make_file(&mut self, _path: &str) -> Result<Nowhere, FolderFault> {
        self.count()?;
        Ok(Nowhere)
    }

    fn finish_file(
        &mut self,
        _path: &str,
        _file: Nowhere,
        _attributes: Attributes,
    ) -> Result<(), FolderFault> {
        self.count()
    }

    fn give_up_file(&mut self, _path: &str, _file: Nowhere) {}

    fn make_symlink(
        &mut self,
        _path: &str,
        _target: &str,
        _attributes: Attributes,
    ) -> Result<(), FolderFault> {
        self.count()
    }

    fn make_link(&mut self, _path: &str, _first: &str) -> Result<(), FolderFault> {
        self.count()
    }

    fn finish_directory(
        &mut self,
        _path: &str,
        _attributes: Attributes,
    ) -> Result<(), FolderFault> {
        self.count()
    }
}

/// Why the tree is not made; none where it is.
fn fault(alloc: Global, image: &[u8]) -> Option<ExtractFault> {
    let Ok(mounted) = mount::<LittleEndian>(alloc, image, LARGE) else {
        return Some(ExtractFault::OutOfMemory);
    };
    let mut folder = Tally { calls: 0 };
    let mut notes = Matcher {
        rest: b"left out /x: no inode\n",
        failures: 0,
    };
    match extract(alloc, &mounted, false, &mut folder, &mut notes) {
        Ok(
            Totals {
                left_out: 1,
                lost_bits: 1,
            },
        ) if folder.calls == 9 => None,
        Ok(_) => Some(ExtractFault::Folder),
        Err(fault) => Some(fault),
    }
}

/// Passes with each allocation failing in turn too: memory is then blamed, and the same call
/// answers as if there had been none before.
#[test]
fn refused_growth_of_a_tree(rt: HostRuntime) {
    let Ok(image) = image_of(rt.alloc(), PLAIN) else {
        return;
    };
    if let Some(refused) = fault(rt.alloc(), &image) {
        equal(&rt, refused, ExtractFault::OutOfMemory);
        equal(&rt, fault(rt.alloc(), &image), None);
    }
}

/// The same of the part at a path, which is made by so many calls.
fn part_fault(alloc: Global, image: &[u8], path: &[u8], calls: u64) -> Option<ExtractFault> {
    let Ok(mounted) = mount::<LittleEndian>(alloc, image, LARGE) else {
        return Some(ExtractFault::OutOfMemory);
    };
    let part = match part_at(alloc, &mounted, path) {
        Ok(part) => part,
        Err(PartFault::Path(_)) => return Some(ExtractFault::Folder),
        Err(PartFault::OutOfMemory) => return Some(ExtractFault::OutOfMemory),
    };
    let mut folder = Tally { calls: 0 };
    let mut notes = Matcher {
        rest: b"",
        failures: 0,
    };
    match extract_part(alloc, &mounted, &part, false, &mut folder, &mut notes) {
        Ok(_) if folder.calls == calls => None,
        Ok(_) => Some(ExtractFault::Folder),
        Err(fault) => Some(fault),
    }
}

/// Paths, and by how many calls the parts there are made.
fn parts() -> &'static [(&'static [u8], u64)] {
    &[(b"/d", 6), (b"/d/f", 4)]
}

/// Passes with each allocation failing in turn too, in the same way.
#[test]
fn refused_growth_of_parts(rt: HostRuntime) {
    let Ok(image) = image_of(rt.alloc(), PLAIN) else {
        return;
    };
    for &(path, calls) in parts() {
        if let Some(refused) = part_fault(rt.alloc(), &image, path, calls) {
            equal(&rt, refused, ExtractFault::OutOfMemory);
            equal(&rt, part_fault(rt.alloc(), &image, path, calls), None);
        }
    }
}
