//! The part of a tree that a path names.

ghost use Rattle.std.specs.Prelude.{◌≡◌, Some, IfOk, IfErr};
ghost use Rattle.jmount.specs.Find.{parts};
ghost use Rattle.jmount.specs.Tree as tree;
ghost use Rattle.jextract.specs.Parts.{IsPartAt, keys_of, way_from};
ghost use Rattle.jextract.specs.PartsOf.{IsPart, IsPartFault, IsWayTo, part_of, part_to};

use crate::extracting::is_directory;
use jmount::{FindFault, Mounted, ROOT, after_slash};
use std::alloc::{AllocError, Global};
use thiserror::Error;

/// A part of the tree of a mounted image.
#[derive(Debug, Drop)]
pub enum Part<'p> {
    /// A directory with all that lies below it: the names that lead to it, each with the number of
    /// the directory that has it.
    Along(Vec<(u32, &'p [u8])>),
    /// One object that is no directory, and the name that it gets.
    Alone { name: &'p [u8], ino: u32 },
}

/// Why there is no part at a path.
#[derive(Debug, Clone, Copy, PartialEq, Eq, Drop, Error)]
pub enum PartFault {
    /// The path names nothing.
    #[error("{0}")]
    Path(FindFault),
    #[error("out of memory")]
    OutOfMemory,
}

/// The number that a name of a directory stands for.
fn number_of(mounted: &Mounted<'_>, dir: u32, name: &[u8]) -> Option<u32>
    ensures { result ≡ tree.named mounted.now.state dir name.now }
{
    for (other, ino) in mounted.entries(dir) {
        if other == name {
            return Some(ino);
        }
    }
    None
}

/// The names between slashes, as far as they lead on from the root, each with its directory.
fn way_along<'p>(
    alloc: Global,
    mounted: &Mounted<'_>,
    names: &'p [u8],
) -> Result<Vec<(u32, &'p [u8])>, AllocError>
    ensures { IfOk result
        (λ way. keys_of way.items ≡ way_from mounted.now.state (Some 1) (parts names.now)) }
{
    let mut way = Vec::new(alloc);
    let mut here = Some(ROOT);
    for name in names.split(|b| *b == b'/') {
        let Some(dir) = here else {
            return Ok(way);
        };
        way.push((dir, name))?;
        here = number_of(mounted, dir, name);
    }
    Ok(way)
}

/// The same of a path.
fn way_to<'p>(
    alloc: Global,
    mounted: &Mounted<'_>,
    path: &'p [u8],
) -> Result<Vec<(u32, &'p [u8])>, AllocError>
    ensures { IfOk result (λ way. IsWayTo mounted.now.state path.now (keys_of way.items)) }
{
    let Some(names) = after_slash(path) else {
        return Ok(Vec::new(alloc));
    };
    if names.is_empty() {
        return Ok(Vec::new(alloc));
    }
    way_along(alloc, mounted, names)
}

/// The part at the end of a way.
fn part_to<'p>(mounted: &Mounted<'_>, way: Vec<(u32, &'p [u8])>, ino: u32) -> Part<'p>
    ensures is_part { IsPart mounted.now.state result }
    ensures part { part_of result mounted.now.state
        ≡ part_to (keys_of way.entry.items) ino mounted.now.state }
{
    let Some((last, _)) = way.as_slice().split_last() else {
        return Part::Along(way);
    };
    if is_directory(mounted, ino) {
        return Part::Along(way);
    }
    Part::Alone { name: last.1, ino }
}

/// The part that a path names: a directory with all that lies below it and the directories on the
/// way to it, which have the next name alone; or another object alone, by its last name.
///
/// # Errors
/// `Path`: the path names nothing; `OutOfMemory`: out of memory.
pub fn part_at<'p>(
    alloc: Global,
    mounted: &Mounted<'_>,
    path: &'p [u8],
) -> Result<Part<'p>, PartFault>
    ensures is_part { IfOk result (IsPart mounted.now.state) }
    ensures part { IfOk result
        (λ part. IsPartAt mounted.now.state path.now (part_of part mounted.now.state)) }
    ensures fault { IfErr result (IsPartFault mounted.now.state path.now) }
{
    let ino = match mounted.find(path) {
        Ok(ino) => ino,
        Err(fault) => return Err(PartFault::Path(fault)),
    };
    match way_to(alloc, mounted, path) {
        Ok(way) => Ok(part_to(mounted, way, ino)),
        Err(_) => Err(PartFault::OutOfMemory),
    }
}
