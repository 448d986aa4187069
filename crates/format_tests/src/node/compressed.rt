//! Compressed nodes, read and written.

use crate::checks::{equal, expect};
use crate::node::nodes::{compressed_of_5, cut_after, start_of};
use crate::node::vectors::*;
use byteorder::{BigEndian, LittleEndian};
use jnode::{
    CompressedNode, Fill, Order, Part, Seen, WriteFault, compressed_at, compressed_fields,
    header_at, header_in, laws, read_part, write_compressed,
};
use std::alloc::Global;
use std::process::Abort;
use std::test::Fail;

fn found_at<'a, E: Order>(rt: &impl Abort, bytes: &'a [u8]) -> Option<CompressedNode<'a>> {
    expect(rt, header_at::<E>(bytes).is_some());
    expect(rt, bytes.len() % 4 == 0);
    compressed_at::<E>(bytes)
}

fn found_in<'a, E: Order>(rt: &impl Abort, part: &Part<'a>) -> Option<CompressedNode<'a>> {
    expect(rt, header_in::<E>(part).is_some());
    expect(rt, part.len() % 4 == 0);
    match read_part::<E>(part) {
        Seen::Compressed { .. } => Some(compressed_fields::<E>(part)),
        _ => None,
    }
}

fn is_the_node(
    rt: &impl Abort,
    alloc: Global,
    found: Option<CompressedNode<'_>>,
) -> Result<(), Fail> {
    let Some(node) = found else {
        panic!(rt; "no compressed node");
    };
    equal(rt, (node.ino, node.version), (0x0102_0304, 18));
    equal(rt, (node.mode, node.isize), (0o100640, 1000));
    equal(rt, (node.uid, node.gid), (0x0506, 0x0708));
    equal(rt, (node.atime, node.mtime, node.ctime), (21, 22, 23));
    equal(rt, (node.offset, node.dsize), (24, 26));
    equal(rt, node.compr, 6);
    let data: Vec<u8> = node.data.iter().collect(alloc)?;
    equal(rt, data.as_slice(), b"abcd\xff".as_slice());
    Ok(())
}

#[test]
fn compressed_nodes_are_read(rt: HostRuntime) -> Result<(), Fail> {
    laws::compressed_reads_back();
    let cut = cut_after(compressed_5(), 72);
    for found in [
        found_at::<LittleEndian>(&rt, compressed_5()),
        found_at::<BigEndian>(&rt, compressed_5_big()),
        found_in::<LittleEndian>(&rt, &cut),
    ] {
        is_the_node(&rt, rt.alloc(), found)?;
    }
    Ok(())
}

#[test]
fn other_nodes_are_not_compressed(rt: HostRuntime) {
    for bytes in [
        little_marker(),
        entry_a(),
        write_4(),
        zero_96(),
        zero_with_data(),
        lzo_of_bad_data(),
        obsolete_a(),
    ] {
        expect(&rt, found_at::<LittleEndian>(&rt, bytes).is_none());
    }
    expect(&rt, found_at::<LittleEndian>(&rt, lzo()).is_some());
}

/// The inode node of the same fields.
#[test]
fn an_inode_node_of_its_fields(rt: HostRuntime) {
    let inode = compressed_of_5().inode_with(Fill::Zero);
    equal(&rt, (inode.ino, inode.version), (0x0102_0304, 18));
    equal(&rt, (inode.mode, inode.isize), (0o100640, 1000));
    equal(&rt, (inode.uid, inode.gid), (0x0506, 0x0708));
    equal(&rt, (inode.atime, inode.mtime, inode.ctime), (21, 22, 23));
    equal(&rt, (inode.offset, inode.dsize), (24, 26));
    expect(&rt, matches!(inode.fill, Fill::Zero));
}

fn is_written<E: Order>(rt: &impl Abort, alloc: Global, bytes: &[u8]) {
    let mut out = Vec::new(alloc);
    expect(
        rt,
        write_compressed::<E>(&mut out, &compressed_of_5()).is_ok(),
    );
    equal(rt, out.as_slice(), start_of(bytes, 73));
}

#[test]
fn compressed_nodes_are_written(rt: HostRuntime) {
    is_written::<LittleEndian>(&rt, rt.alloc(), compressed_5());
    is_written::<BigEndian>(&rt, rt.alloc(), compressed_5_big());
}

#[test]
fn compressed_nodes_are_refused(rt: HostRuntime) {
    let mut out = Vec::new(rt.alloc());
    let nameless = CompressedNode {
        ino: 0,
        ..compressed_of_5()
    };
    let past_the_end = CompressedNode {
        offset: 0xFFFF_FFFF,
        dsize: 1,
        ..compressed_of_5()
    };
    let huge = CompressedNode {
        data: Part::new(&[], 4_194_237),
        ..compressed_of_5()
    };
    let uncompressed = CompressedNode {
        compr: 0,
        ..compressed_of_5()
    };
    let zeros = CompressedNode {
        compr: 1,
        ..compressed_of_5()
    };
    for node in [nameless, past_the_end, huge, uncompressed, zeros] {
        let refused = write_compressed::<LittleEndian>(&mut out, &node);
        expect(&rt, matches!(refused, Err(WriteFault::Data)));
        expect(&rt, out.is_empty());
    }
}
