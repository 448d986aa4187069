//! The nodes of a flat file system.

ghost use Rattle.std.specs.Prelude.{◌≡◌, ◌++◌, IfOk, filter, is_some, map};
ghost use Rattle.jmount.specs.Collected.{without_addresses};
ghost use Rattle.jmount.specs.StateOf.{inode_in};
ghost use Rattle.jdeleted.specs.Deleted.{entry_of_file, flat_entry};

use crate::files::DeletedFile;
use flashbase::Part;
use jmount::ROOT;
use jnode::{Dirent, NodeRef};
use std::alloc::AllocError;

/// Bits 12 to 15 of the mode of a regular file (Linux, `include/uapi/linux/stat.h`).
const REGULAR_BITS: u8 = 8;

/// The entry of the root for a file.
fn entry_of(file: &DeletedFile) -> Dirent<'_>
    ensures { result ≡ flat_entry file.now.ino file.now.name.items }
{
    Dirent {
        pino: ROOT,
        version: file.ino,
        ino: file.ino,
        mctime: 0,
        kind: REGULAR_BITS,
        name: Part::new(file.name.as_slice(), 0),
    }
}

fn is_inode(node: &NodeRef<'_>) -> bool
    ensures { result ≡ is_some (inode_in node.now) }
{
    matches!(node, NodeRef::Inode(_))
}

/// Those of some nodes that are inode nodes.
fn inodes_of<'a>(nodes: Vec<(u32, NodeRef<'a>)>) -> Vec<(u32, NodeRef<'a>)>
    ensures { result.items ≡ filter (λ n. is_some (inode_in n.1)) nodes.entry.items }
{
    let mut kept = nodes;
    kept.retain(|node| is_inode(&node.1));
    kept
}

/// The inode nodes among some nodes, and an entry for each of these files. An entry has no address:
/// it says 0.
pub(crate) fn flat_nodes<'a>(
    nodes: Vec<(u32, NodeRef<'a>)>,
    files: &'a [DeletedFile],
) -> Result<Vec<(u32, NodeRef<'a>)>, AllocError>
    ensures { IfOk result (λ flat. without_addresses flat.items
        ≡ filter (λ n. is_some (inode_in n)) (without_addresses nodes.entry.items)
        ++ map entry_of_file files.now) }
{
    let mut flat = inodes_of(nodes);
    for file in files {
        flat.push((0, NodeRef::Entry(entry_of(file))))?;
    }
    Ok(flat)
}
