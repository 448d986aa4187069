//! The objects that inode nodes make.

ghost use Rattle.std.specs.Prelude.{◌≡◌, ◌<◌, ◌^◌, ℕ, Some, None, IfOk, All, map, option_map};
ghost use Rattle.std.specs.Ordering.{nat_cmp};
ghost use Rattle.std.specs.BTreeMap.{IsOrdered, get};
ghost use Rattle.jfrag.specs.Pieces.{end_of};
ghost use Rattle.jmount.specs.Inodes.{IsByVersion, IsKeyed, nodes_in, nodes_of_numbers};
ghost use Rattle.jmount.specs.Kept.{HasNoDirectories, directory_kept};
ghost use Rattle.jmount.specs.StateOf.{body_of, piece_of};
ghost use Rattle.jmount.specs.Storing.{made_of_number, made_by, made_root, or_made_root, as_made};

use crate::device::device_of;
use crate::inodes::NodesByNumber;
use crate::mounted::ROOT;
use crate::stored::Stored;
use crate::versions::Versions;
use jfrag::{Body, FragOverlay, Overlay, Piece, overlay};
use jnode::{Fill, InodeNode};
use std::alloc::{AllocError, Global};
use std::collections::BTreeMap;

/// The objects of these numbers, and the root.
pub fn objects_with_root<'a>(
    alloc: Global,
    numbers: NodesByNumber<'a>,
) -> Result<BTreeMap<u32, Stored<'a>>, AllocError>
    requires keyed { IsKeyed numbers }
    requires ends { All (λ node. end_of (piece_of node) < 2 ^ 32) (nodes_of_numbers numbers) }
    ensures each { IfOk result (λ objects. (i : ℕ) → option_map as_made (get nat_cmp objects i)
        ≡ or_made_root i (made_of_number numbers.entry i)) }
    ensures none { IfOk result HasNoDirectories }
    ensures ordered { IfOk result (IsOrdered nat_cmp) }
{
    let mut objects = objects_of(alloc, numbers)?;
    if !objects.contains_key(&ROOT) {
        objects.insert(ROOT, default_root(alloc))?;
    }
    Ok(objects)
}

/// The root of an image that has no inode node for it.
fn default_root<'a>(alloc: Global) -> Stored<'a>
    ensures made { as_made result ≡ made_root }
    ensures none { directory_kept result ≡ None }
{
    Stored {
        version: 0,
        mode: 0o040755,
        uid: 0,
        gid: 0,
        size: 0,
        atime: 0,
        mtime: 0,
        ctime: 0,
        device: None,
        directory: 0,
        bytes: FragOverlay::new(alloc),
    }
}

/// The objects of these numbers. The memory of the nodes goes back as that of the objects is taken.
fn objects_of<'a>(
    alloc: Global,
    numbers: NodesByNumber<'a>,
) -> Result<BTreeMap<u32, Stored<'a>>, AllocError>
    requires keyed { IsKeyed numbers }
    requires ends { All (λ node. end_of (piece_of node) < 2 ^ 32) (nodes_of_numbers numbers) }
    ensures each { IfOk result (λ objects. (i : ℕ) → option_map as_made (get nat_cmp objects i)
        ≡ made_of_number numbers.entry i) }
    ensures none { IfOk result HasNoDirectories }
    ensures ordered { IfOk result (IsOrdered nat_cmp) }
{
    let mut objects = BTreeMap::new(alloc);
    for (ino, versions) in numbers {
        objects.insert(ino, object_of(alloc, &versions)?)?;
    }
    Ok(objects)
}

/// The object that the nodes of one number make.
fn object_of<'a>(alloc: Global, versions: &Versions<'a>) -> Result<Stored<'a>, AllocError>
    requires by_version { IsByVersion versions.now }
    requires ends { All (λ node. end_of (piece_of node) < 2 ^ 32) (nodes_in versions.now) }
    ensures made { IfOk result
        (λ stored. Some (as_made stored) ≡ made_by (nodes_in versions.now)) }
    ensures none { IfOk result (λ stored. directory_kept stored ≡ None) }
{
    let pieces = pieces_of(alloc, versions)?;
    let bytes = overlay(alloc, &pieces)?;
    let latest = &versions.newest;
    Ok(Stored {
        version: latest.version,
        mode: latest.mode,
        uid: latest.uid,
        gid: latest.gid,
        size: latest.isize,
        atime: latest.atime,
        mtime: latest.mtime,
        ctime: latest.ctime,
        device: device_of(latest),
        directory: 0,
        bytes,
    })
}

fn pieces_of<'a>(alloc: Global, versions: &Versions<'a>) -> Result<Vec<Piece<'a>>, AllocError>
    ensures { IfOk result (λ pieces. pieces.items ≡ map piece_of (nodes_in versions.now)) }
{
    let mut pieces = Vec::with_capacity(alloc, versions.older.nodes.len() + 1)?;
    pieces.push(piece_of(&versions.newest))?;
    for node in &versions.older.nodes {
        pieces.push(piece_of(node))?;
    }
    Ok(pieces)
}

fn piece_of<'a>(node: &InodeNode<'a>) -> Piece<'a>
    ensures { result ≡ piece_of node.now }
{
    let body = match &node.fill {
        Fill::Zero => Body::Zero(node.dsize),
        Fill::Data(bytes) => Body::Bytes(bytes.copied()),
    };
    Piece {
        version: node.version,
        offset: node.offset,
        body,
    }
}
