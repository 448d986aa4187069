//! Nodes that are written, byte by byte, and those that are refused.

use crate::checks::{equal, expect};
use crate::node::nodes::{entry_of, new_file, start_of, write_of, zeros_of_96};
use crate::node::vectors::*;
use byteorder::{BigEndian, LittleEndian};
use jnode::{
    InodeNode, Order, Seen, WriteFault, header_at, read_node, write_entry, write_inode,
    write_marker, write_padding,
};
use std::alloc::Global;
use std::process::Abort;
use std::test::Fail;

/// A fault's text, and nothing for none.
fn message(alloc: Global, written: Result<(), WriteFault>) -> Result<String, Fail> {
    match written {
        Ok(()) => Ok(String::new(alloc)),
        Err(fault) => Ok(format!(in alloc; "{fault}")?),
    }
}

#[test]
fn clean_markers(rt: HostRuntime) {
    let mut out = Vec::new(rt.alloc());
    expect(&rt, write_marker::<LittleEndian>(&mut out).is_ok());
    equal(&rt, out.as_slice(), little_marker());
    out.clear();
    expect(&rt, write_marker::<BigEndian>(&mut out).is_ok());
    equal(&rt, out.as_slice(), big_marker());
}

/// An entry of the name `a` appended to a clean marker.
fn is_entry_written<E: Order>(rt: &impl Abort, alloc: Global, entry: &[u8]) {
    let mut out = Vec::new(alloc);
    expect(rt, write_marker::<E>(&mut out).is_ok());
    expect(rt, write_entry::<E>(&mut out, &entry_of(1, b"a")).is_ok());
    equal(rt, out.get(12..), Some(entry));
}

#[test]
fn entries_are_written(rt: HostRuntime) {
    is_entry_written::<LittleEndian>(&rt, rt.alloc(), start_of(entry_a(), 41));
    is_entry_written::<BigEndian>(&rt, rt.alloc(), start_of(entry_a_big(), 41));
}

#[test]
fn entries_are_refused(rt: HostRuntime) -> Result<(), Fail> {
    let mut out = Vec::new(rt.alloc());
    expect(
        &rt,
        write_entry::<LittleEndian>(&mut out, &entry_of(1, b"a")).is_ok(),
    );
    for (pino, name, fault) in [
        (1, b"".as_slice(), "N1 Name"),
        (0, b"".as_slice(), "N1 Name"),
        (0, b"a".as_slice(), "N2 Data"),
        (1, [0u8; 255].as_slice(), "N1 Name"),
    ] {
        let refused = write_entry::<LittleEndian>(&mut out, &entry_of(pino, name));
        equal(&rt, message(rt.alloc(), refused)?.as_str(), fault);
        equal(&rt, out.as_slice(), start_of(entry_a(), 41));
    }
    Ok(())
}

#[test]
fn the_longest_name(rt: HostRuntime) {
    let mut out = Vec::new(rt.alloc());
    expect(
        &rt,
        write_entry::<BigEndian>(&mut out, &entry_of(1, &[b'n'; 254])).is_ok(),
    );
    equal(&rt, out.len(), 294);
}

fn is_inode_written<E: Order>(rt: &impl Abort, alloc: Global, node: &InodeNode<'_>, bytes: &[u8]) {
    let mut out = Vec::new(alloc);
    expect(rt, write_inode::<E>(&mut out, node).is_ok());
    equal(rt, out.as_slice(), bytes);
}

#[test]
fn inodes_are_written(rt: HostRuntime) {
    let write = write_of(b"abc\xff", 4);
    is_inode_written::<LittleEndian>(&rt, rt.alloc(), &new_file(), inode_2());
    is_inode_written::<LittleEndian>(&rt, rt.alloc(), &write, write_4());
    is_inode_written::<BigEndian>(&rt, rt.alloc(), &write, write_4_big());
    is_inode_written::<LittleEndian>(&rt, rt.alloc(), &zeros_of_96(), zero_96());
}

#[test]
fn inodes_are_refused(rt: HostRuntime) -> Result<(), Fail> {
    let mut out = Vec::new(rt.alloc());
    expect(
        &rt,
        write_inode::<LittleEndian>(&mut out, &new_file()).is_ok(),
    );
    let nameless = InodeNode {
        ino: 0,
        ..new_file()
    };
    let past_the_end = InodeNode {
        offset: 0xFFFF_FFFF,
        dsize: 1,
        ..zeros_of_96()
    };
    for node in [nameless, past_the_end, write_of(b"abc", 4)] {
        let refused = write_inode::<LittleEndian>(&mut out, &node);
        equal(&rt, message(rt.alloc(), refused)?.as_str(), "N2 Data");
        equal(&rt, out.as_slice(), inode_2());
    }
    Ok(())
}

/// So many bytes.
fn some_bytes(alloc: Global, n: usize) -> Result<Vec<u8>, Fail> {
    let mut bytes = Vec::new(alloc);
    bytes.resize(n, 0x5A)?;
    Ok(bytes)
}

#[test]
fn a_node_past_the_greatest(rt: HostRuntime) -> Result<(), Fail> {
    let data = some_bytes(rt.alloc(), 4_194_237)?;
    let mut out = Vec::new(rt.alloc());
    let refused = write_inode::<LittleEndian>(&mut out, &write_of(&data, 4_194_237));
    equal(&rt, message(rt.alloc(), refused)?.as_str(), "N2 Data");
    expect(&rt, out.is_empty());
    Ok(())
}

/// The greatest node has 4,194,304 bytes.
#[test]
fn the_greatest_node(rt: HostRuntime) -> Result<(), Fail> {
    let data = some_bytes(rt.alloc(), 4_194_236)?;
    let mut out = Vec::new(rt.alloc());
    let node = write_of(&data, 4_194_236);
    expect(&rt, write_inode::<LittleEndian>(&mut out, &node).is_ok());
    equal(&rt, out.len(), 4_194_304);
    expect(&rt, header_at::<LittleEndian>(&out).is_some());
    expect(
        &rt,
        matches!(read_node::<LittleEndian>(&out), Seen::Inode(seen) if seen.ino == 2),
    );
    Ok(())
}

#[test]
fn padding_is_refused(rt: HostRuntime) -> Result<(), Fail> {
    let mut out = Vec::new(rt.alloc());
    for totlen in [0, 11, 4_194_305, u32::MAX] {
        let refused = write_padding::<LittleEndian>(&mut out, totlen);
        equal(&rt, message(rt.alloc(), refused)?.as_str(), "N2 Data");
        expect(&rt, out.is_empty());
    }
    Ok(())
}

#[test]
fn padding_is_written(rt: HostRuntime) {
    let mut out = Vec::new(rt.alloc());
    expect(&rt, write_padding::<LittleEndian>(&mut out, 16).is_ok());
    equal(&rt, out.as_slice(), padding_16());
    expect(&rt, write_padding::<BigEndian>(&mut out, 12).is_ok());
    equal(&rt, out.len(), 28);
}
