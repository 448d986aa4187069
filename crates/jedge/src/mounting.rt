//! Images that a command goes on with, and their mounts.
ghost use Rattle.std.specs.Prelude.{◌≡◌, true, IfErr, IfOk, IsSome, option_map, string_bytes};
ghost use Rattle.jlook.specs.Chosen.{object_by_path, symlinks_in};
ghost use Rattle.jedge.specs.Views.{HasBlockSize};
ghost use Rattle.jedge.specs.Images.{HasNodes, IsNoNodesOf, MountsFor, MountsWith, MountsOrRefuses, view_refusal};

use crate::fault::Fault;
use jlook::{mount_object, mount_tree};
use jmount::{MountFault, Mounted};
use jnode::Order;
use jreport::{ProgramFault, mount_or_tell, others_if_none};
use jscan::{Geometry, ScanFault};
use jthrough::{ViewFault, mount_through};
use std::alloc::{AllocError, Global};

/// A name that a fault owns.
fn kept(alloc: Global, name: Option<&str>) -> Result<Option<String>, AllocError>
    ensures kept { IfOk result
        (λ kept. option_map string_bytes kept ≡ option_map (λ n. n.now) name.entry) }
    ensures named { IfErr result (λ _. IsSome (option_map (λ n. n.now) name.entry)) }
{
    match name {
        Some(name) => match name.to_string(alloc) {
            Ok(name) => Ok(Some(name)),
            Err(error) => Err(error),
        },
        None => Ok(None),
    }
}

/// The fault of an image in which no node is found.
fn no_nodes(alloc: Global, name: Option<&str>, others: u64) -> Fault
    ensures { IsNoNodesOf (option_map (λ n. n.now) name.entry) others result }
{
    match kept(alloc, name) {
        Ok(name) => Fault::NoNodes { name, others },
        Err(_) => Fault::OutOfMemory,
    }
}

/// Whether blocks have this size.
pub fn judge_block_size(geometry: Geometry) -> Result<(), Fault>
    ensures { HasBlockSize geometry.block result }
{
    if geometry.is_readable() {
        Ok(())
    } else {
        Err(Fault::Refused(ProgramFault::Scan(ScanFault::BlockSize)))
    }
}

/// Whether a node is found in an image, or it is blank. `name` tells it from others that are read.
pub fn judge_nodes<E: Order>(
    alloc: Global,
    image: &[u8],
    geometry: Geometry,
    name: Option<&str>,
) -> Result<(), Fault>
    ensures { HasNodes E.order geometry.block (option_map (λ n. n.now) name.entry) image.now
        result }
{
    match others_if_none::<E>(image, geometry) {
        Some(others) => Err(no_nodes(alloc, name, others)),
        None => Ok(()),
    }
}

/// Mounts an image.
pub fn mounted<'a, E: Order>(
    alloc: Global,
    image: &'a [u8],
    geometry: Geometry,
) -> Result<Mounted<'a>, Fault>
    ensures { MountsOrRefuses E.order geometry.block image.now result }
{
    match mount_or_tell::<E>(alloc, image, geometry) {
        Ok(mounted) => Ok(mounted),
        Err(fault) => Err(Fault::Refused(fault)),
    }
}

/// Why an image does not mount through its compression, as the program tells it.
pub fn view_refusal(fault: ViewFault) -> ProgramFault<'static>
    ensures { result ≡ view_refusal fault }
{
    match fault {
        ViewFault::BlockSize => ProgramFault::Mount(MountFault::BlockSize),
        ViewFault::TooLarge => ProgramFault::Mount(MountFault::TooLarge),
        ViewFault::Incompatible { addr, nodetype } => {
            ProgramFault::Mount(MountFault::Incompatible { addr, nodetype })
        }
        ViewFault::Compressed { addr, compr } => {
            ProgramFault::Mount(MountFault::Compressed { addr, compr })
        }
        ViewFault::Data { addr } => ProgramFault::Data { addr },
        ViewFault::TooLong { addr } => ProgramFault::TooLong { addr },
        ViewFault::Clash { addr } => ProgramFault::Mount(MountFault::Clash { addr }),
        ViewFault::RootKind => ProgramFault::Mount(MountFault::RootKind),
        ViewFault::OutOfMemory => ProgramFault::Mount(MountFault::OutOfMemory),
    }
}

/// Mounts an image through its compression.
fn mounted_through<'a, E: Order>(
    alloc: Global,
    image: &'a [u8],
    geometry: Geometry,
    contents: &'a mut Vec<u8>,
) -> Result<Mounted<'a>, Fault>
    ensures { MountsWith true E.order geometry.block image.now result }
{
    match mount_through::<E>(alloc, image, geometry, contents) {
        Ok(mounted) => Ok(mounted),
        Err(fault) => Err(Fault::Refused(view_refusal(fault))),
    }
}

/// Mounts an image, through its compression if that is asked for. Then the contents of its
/// compressed nodes take the place of the bytes in `contents`, which the mount borrows.
pub fn mounted_as<'a, E: Order>(
    alloc: Global,
    image: &'a [u8],
    geometry: Geometry,
    decompress: bool,
    contents: &'a mut Vec<u8>,
) -> Result<Mounted<'a>, Fault>
    ensures { MountsWith decompress E.order geometry.block image.now result }
{
    if decompress {
        mounted_through::<E>(alloc, image, geometry, contents)
    } else {
        mounted::<E>(alloc, image, geometry)
    }
}

/// Looks at an image through its compression for its tree.
fn tree_through<'a, E: Order>(
    alloc: Global,
    image: &'a [u8],
    geometry: Geometry,
    contents: &'a mut Vec<u8>,
) -> Result<Mounted<'a>, Fault>
    ensures { MountsFor symlinks_in true E.order geometry.block image.now result }
{
    match mount_tree::<E>(alloc, image, geometry, contents) {
        Ok(mounted) => Ok(mounted),
        Err(fault) => Err(Fault::Refused(view_refusal(fault))),
    }
}

/// Mounts an image to print its tree: with `decompress` the targets of its symlinks are
/// decompressed, and no other data. They take the place of the bytes in `contents`.
pub fn mounted_tree<'a, E: Order>(
    alloc: Global,
    image: &'a [u8],
    geometry: Geometry,
    decompress: bool,
    contents: &'a mut Vec<u8>,
) -> Result<Mounted<'a>, Fault>
    ensures { MountsFor symlinks_in decompress E.order geometry.block image.now result }
{
    if decompress {
        tree_through::<E>(alloc, image, geometry, contents)
    } else {
        mounted::<E>(alloc, image, geometry)
    }
}

/// Looks at an image through its compression for the object that a path names.
fn object_through<'a, E: Order>(
    alloc: Global,
    image: &'a [u8],
    geometry: Geometry,
    path: &[u8],
    contents: &'a mut Vec<u8>,
) -> Result<Mounted<'a>, Fault>
    ensures { MountsFor (object_by_path path.now) true E.order geometry.block image.now result }
{
    match mount_object::<E>(alloc, image, geometry, path, contents) {
        Ok(mounted) => Ok(mounted),
        Err(fault) => Err(Fault::Refused(view_refusal(fault))),
    }
}

/// Mounts an image to print what a path names: with `decompress` the data of that object are
/// decompressed, and no others. They take the place of the bytes in `contents`.
pub fn mounted_object<'a, E: Order>(
    alloc: Global,
    image: &'a [u8],
    geometry: Geometry,
    decompress: bool,
    path: &[u8],
    contents: &'a mut Vec<u8>,
) -> Result<Mounted<'a>, Fault>
    ensures { MountsFor (object_by_path path.now) decompress E.order geometry.block image.now
        result }
{
    if decompress {
        object_through::<E>(alloc, image, geometry, path, contents)
    } else {
        mounted::<E>(alloc, image, geometry)
    }
}
