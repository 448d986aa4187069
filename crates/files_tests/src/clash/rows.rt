//! Nodes as rows of a table.

ghost use Rattle.std.specs.Prelude.{IfOk};
ghost use Rattle.jclash.specs.Parting.{AreByAddress};

use crate::checks::expect;
use byteorder::LittleEndian;
use flashbase::Part;
use jclash::LeftOut;
use jnode::{Dirent, Fill, InodeNode, NodeRef, write_entry, write_inode};
use std::alloc::{AllocError, Global};
use std::process::Abort;

#[derive(Clone, Copy)]
pub(crate) enum Node {
    /// Number, version, owner, and data.
    Inode(u32, u32, u16, &'static [u8]),
    /// Directory, version, number, and name.
    Entry(u32, u32, u32, &'static [u8]),
    /// The same, and an erased byte follows that the image lacks.
    Cut(u32, u32, u32, &'static [u8; 3]),
}

/// Nodes with their addresses, the places of those that stay, and those that are left out.
pub(crate) struct Row {
    pub nodes: &'static [(u32, Node)],
    pub stay: &'static [usize],
    pub left: &'static [LeftOut],
}

fn entry(pino: u32, version: u32, ino: u32, name: Part<'static>) -> NodeRef<'static> {
    NodeRef::Entry(Dirent {
        pino,
        version,
        ino,
        mctime: 14,
        kind: 8,
        name,
    })
}

pub(crate) fn made(node: Node) -> NodeRef<'static> {
    match node {
        Node::Inode(ino, version, uid, data) => NodeRef::Inode(InodeNode {
            ino,
            version,
            mode: 0o100_644,
            uid,
            gid: 8,
            isize: 9,
            atime: 10,
            mtime: 11,
            ctime: 12,
            offset: 13,
            dsize: u32::try_from(data.len()).unwrap_or(u32::MAX),
            fill: Fill::Data(Part::new(data, 0)),
        }),
        Node::Entry(pino, version, ino, name) => entry(pino, version, ino, Part::new(name, 0)),
        Node::Cut(pino, version, ino, name) => entry(pino, version, ino, Part::new(name, 1)),
    }
}

/// The nodes of a row, which is one in order of the addresses.
pub(crate) fn placed(
    rt: &impl Abort,
    alloc: Global,
    row: &[(u32, Node)],
) -> Result<Vec<(u32, NodeRef<'static>)>, AllocError>
    ensures { IfOk result (λ nodes. AreByAddress nodes.items) }
{
    let mut nodes = Vec::new(alloc);
    let mut least = 0u64;
    for (addr, node) in row {
        expect(rt, least <= u64::from(*addr));
        nodes.push((*addr, made(*node)))?;
        least = u64::from(*addr) + 1;
    }
    Ok(nodes)
}

/// Adds a node as it is written.
pub(crate) fn put(bytes: &mut Vec<u8>, node: &NodeRef<'_>) -> Result<(), &'static str> {
    match node {
        NodeRef::Entry(entry) => {
            write_entry::<LittleEndian>(bytes, entry).map_err(|_| "no entry node")
        }
        NodeRef::Inode(inode) => {
            write_inode::<LittleEndian>(bytes, inode).map_err(|_| "no inode node")
        }
    }
}

/// The nodes at these places of a row, as they are written.
pub(crate) fn written(
    alloc: Global,
    row: &[(u32, Node)],
    places: &[usize],
) -> Result<Vec<u8>, &'static str> {
    let mut bytes = Vec::new(alloc);
    for place in places {
        let (_, node) = row.get(*place).ok_or("no such node")?;
        put(&mut bytes, &made(*node))?;
    }
    Ok(bytes)
}
