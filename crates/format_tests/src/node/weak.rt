//! The least weak cut of written nodes: values from a model of the format in another language, with
//! zlib's checksum.

use crate::checks::equal;
use crate::node::nodes::{entry_of, new_file, zeros_of_96};
use byteorder::{BigEndian, LittleEndian};
use jnode::{Dirent, Fill, InodeNode, Order, Part, weak_cut, write_entry, write_inode};
use std::alloc::Global;
use std::test::Fail;

/// Five bytes with the checksum of five erased ones.
const HIDDEN: [u8; 5] = [0xBE, 0xF9, 0x8E, 0x24, 0xFE];

/// The least weak cut of a node as it is written.
fn entry_cut<E: Order>(alloc: Global, node: &Dirent<'_>) -> Result<Option<usize>, Fail> {
    let mut out = Vec::new(alloc);
    match write_entry::<E>(&mut out, node) {
        Ok(()) => Ok(weak_cut::<E>(&out)),
        Err(_) => Err(Fail::from("not written")),
    }
}

/// The least weak cut of a node as it is written.
fn inode_cut<E: Order>(alloc: Global, node: &InodeNode<'_>) -> Result<Option<usize>, Fail> {
    let mut out = Vec::new(alloc);
    match write_inode::<E>(&mut out, node) {
        Ok(()) => Ok(weak_cut::<E>(&out)),
        Err(_) => Err(Fail::from("not written")),
    }
}

/// A write at the start of object 2.
fn first_bytes(version: u32, data: &[u8]) -> InodeNode<'_> {
    let size = data.len().min(1000) as u32;
    InodeNode {
        version,
        isize: size,
        dsize: size,
        fill: Fill::Data(Part::new(data, 0)),
        ..new_file()
    }
}

#[test]
fn nodes_without_a_weak_cut(rt: HostRuntime) -> Result<(), Fail> {
    let alloc = rt.alloc();
    equal(
        &rt,
        entry_cut::<LittleEndian>(alloc, &entry_of(1, b"a"))?,
        None,
    );
    equal(
        &rt,
        entry_cut::<BigEndian>(alloc, &entry_of(1, b"a"))?,
        None,
    );
    for node in [new_file(), zeros_of_96(), first_bytes(2, &[0xFF; 9])] {
        equal(&rt, inode_cut::<LittleEndian>(alloc, &node)?, None);
        equal(&rt, inode_cut::<BigEndian>(alloc, &node)?, None);
    }
    Ok(())
}

/// The data end in bytes that have the checksum of as many erased ones.
#[test]
fn weak_cuts_in_data(rt: HostRuntime) -> Result<(), Fail> {
    let after = [0x61, 0x62, 0x63, 0xBE, 0xF9, 0x8E, 0x24, 0xFE, 0xFF, 0xFF];
    let twice = [
        0x78, 0xBE, 0xF9, 0x8E, 0x24, 0xFE, 0xFF, 0xBE, 0xF9, 0x8E, 0x24, 0xFE,
    ];
    for (data, cut) in [
        (HIDDEN.as_slice(), 68),
        (after.as_slice(), 71),
        (twice.as_slice(), 69),
    ] {
        let node = first_bytes(2, data);
        equal(
            &rt,
            inode_cut::<LittleEndian>(rt.alloc(), &node)?,
            Some(cut),
        );
        equal(&rt, inode_cut::<BigEndian>(rt.alloc(), &node)?, Some(cut));
    }
    Ok(())
}

/// A node_crc that ends in bytes 0xFF, one or all four.
#[test]
fn weak_cuts_in_a_node_crc(rt: HostRuntime) -> Result<(), Fail> {
    for (version, mtime, cut) in [(11, 0, 67), (2, 1984728263, 64)] {
        let node = InodeNode {
            mtime,
            ..first_bytes(version, &HIDDEN)
        };
        equal(
            &rt,
            inode_cut::<LittleEndian>(rt.alloc(), &node)?,
            Some(cut),
        );
    }
    for (version, mtime, cut) in [(1048, 0, 67), (2, 1036182888, 64)] {
        let node = InodeNode {
            mtime,
            ..first_bytes(version, &HIDDEN)
        };
        equal(&rt, inode_cut::<BigEndian>(rt.alloc(), &node)?, Some(cut));
    }
    Ok(())
}

#[test]
fn weak_cuts_in_a_name(rt: HostRuntime) -> Result<(), Fail> {
    let after = [0x61, 0x62, 0xBE, 0xF9, 0x8E, 0x24, 0xFE, 0xFF];
    for (name, cut) in [(HIDDEN.as_slice(), 40), (after.as_slice(), 42)] {
        let node = entry_of(1, name);
        equal(
            &rt,
            entry_cut::<LittleEndian>(rt.alloc(), &node)?,
            Some(cut),
        );
        equal(&rt, entry_cut::<BigEndian>(rt.alloc(), &node)?, Some(cut));
    }
    Ok(())
}
