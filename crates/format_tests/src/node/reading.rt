//! What nodes are seen as.

use crate::checks::{equal, expect};
use crate::node::nodes::cut_after;
use crate::node::vectors::*;
use byteorder::{BigEndian, LittleEndian};
use jnode::{Fill, Order, Part, Seen, header_at, header_in, laws, read_node, read_part};
use std::alloc::Global;
use std::process::Abort;
use std::test::Fail;

/// What is seen, in short: its name, and a number that tells it from others of that name.
fn brief(seen: &Seen<'_>) -> (&'static str, u32) {
    match seen {
        Seen::Entry(entry) => ("entry", entry.ino),
        Seen::Inode(inode) => ("inode", inode.ino),
        Seen::Marker => ("marker", 0),
        Seen::Padding => ("padding", 0),
        Seen::Obsolete => ("obsolete", 0),
        Seen::Attribute => ("attribute", 0),
        Seen::Skippable { nodetype } => ("skippable", u32::from(*nodetype)),
        Seen::ReadOnly { nodetype } => ("read-only", u32::from(*nodetype)),
        Seen::Incompatible { nodetype } => ("incompatible", u32::from(*nodetype)),
        Seen::Compressed { compr } => ("compressed", u32::from(*compr)),
        Seen::Damaged { which } => ("damaged", *which as u32),
    }
}

fn seen_as<'a, E: Order>(rt: &impl Abort, bytes: &'a [u8]) -> Seen<'a> {
    expect(rt, header_at::<E>(bytes).is_some());
    expect(rt, bytes.len() % 4 == 0);
    read_node::<E>(bytes)
}

fn seen_in<'a, E: Order>(rt: &impl Abort, part: &Part<'a>) -> Seen<'a> {
    expect(rt, header_in::<E>(part).is_some());
    expect(rt, part.len() % 4 == 0);
    read_part::<E>(part)
}

fn is_seen(rt: &impl Abort, bytes: &[u8], seen: (&'static str, u32)) {
    equal(rt, brief(&seen_as::<LittleEndian>(rt, bytes)), seen);
}

#[test]
fn types_are_seen(rt: HostRuntime) {
    is_seen(&rt, little_marker(), ("marker", 0));
    equal(
        &rt,
        brief(&seen_as::<BigEndian>(&rt, big_marker())),
        ("marker", 0),
    );
    is_seen(&rt, padding_16(), ("padding", 0));
    is_seen(&rt, attribute(), ("attribute", 0));
    is_seen(&rt, incompatible(), ("incompatible", 0xE0F7));
    is_seen(&rt, read_only(), ("read-only", 0xA0F7));
    is_seen(&rt, summary(), ("skippable", 0x2006));
    is_seen(&rt, obsolete(), ("obsolete", 0));
    is_seen(&rt, obsolete_a(), ("obsolete", 0));
}

/// The check that fails first is named.
#[test]
fn checks_in_their_order(rt: HostRuntime) {
    is_seen(&rt, lzo_of_bad_data(), ("damaged", 3));
    is_seen(&rt, bad_name(), ("damaged", 2));
    is_seen(&rt, bad_entry(), ("damaged", 1));
    is_seen(&rt, bad_inode(), ("damaged", 1));
    is_seen(&rt, short_entry(), ("damaged", 4));
    is_seen(&rt, short_inode(), ("damaged", 4));
    is_seen(&rt, longer_name(), ("damaged", 4));
    is_seen(&rt, no_parent(), ("damaged", 5));
    is_seen(&rt, no_name(), ("damaged", 5));
    is_seen(&rt, no_object(), ("damaged", 5));
    is_seen(&rt, unlike_lengths(), ("damaged", 5));
    is_seen(&rt, past_the_end(), ("damaged", 5));
    is_seen(&rt, huge_data(), ("damaged", 4));
}

/// Bytes that no rule speaks of are free.
#[test]
fn free_bytes(rt: HostRuntime) {
    is_seen(&rt, unused_bytes(), ("entry", 2));
    is_seen(&rt, free_flags(), ("inode", 2));
    is_seen(&rt, zero_with_data(), ("inode", 2));
    is_seen(&rt, lzo(), ("compressed", 7));
    is_seen(&rt, inode_2(), ("inode", 2));
}

fn is_entry_a(rt: &impl Abort, alloc: Global, seen: Seen<'_>) -> Result<(), Fail> {
    let Seen::Entry(entry) = seen else {
        panic!(rt; "no entry");
    };
    equal(rt, (entry.pino, entry.version, entry.ino), (1, 1, 2));
    equal(rt, (entry.mctime, entry.kind), (0, 8));
    is_part(rt, alloc, &entry.name, b"a")
}

fn is_part(rt: &impl Abort, alloc: Global, part: &Part<'_>, bytes: &[u8]) -> Result<(), Fail> {
    let present: Vec<u8> = part.iter().collect(alloc)?;
    equal(rt, present.as_slice(), bytes);
    Ok(())
}

#[test]
fn entries_are_read(rt: HostRuntime) -> Result<(), Fail> {
    laws::reads_one();
    let little = entry_a();
    let big = entry_a_big();
    let cut = cut_after(&little, 41);
    for seen in [
        seen_as::<LittleEndian>(&rt, &little),
        seen_as::<BigEndian>(&rt, &big),
        seen_in::<LittleEndian>(&rt, &cut),
    ] {
        is_entry_a(&rt, rt.alloc(), seen)?;
    }
    Ok(())
}

fn is_write_4(rt: &impl Abort, alloc: Global, seen: Seen<'_>) -> Result<(), Fail> {
    let Seen::Inode(inode) = seen else {
        panic!(rt; "no inode node");
    };
    equal(rt, (inode.ino, inode.version, inode.mode), (2, 2, 0o100644));
    equal(rt, (inode.uid, inode.gid, inode.isize), (5, 6, 104));
    equal(rt, (inode.atime, inode.mtime, inode.ctime), (7, 8, 9));
    equal(rt, (inode.offset, inode.dsize), (100, 4));
    let Fill::Data(data) = inode.fill else {
        panic!(rt; "no data");
    };
    is_part(rt, alloc, &data, b"abc\xff")
}

#[test]
fn inodes_are_read(rt: HostRuntime) -> Result<(), Fail> {
    let little = write_4();
    let big = write_4_big();
    let cut = cut_after(&little, 71);
    for seen in [
        seen_as::<LittleEndian>(&rt, &little),
        seen_as::<BigEndian>(&rt, &big),
        seen_in::<LittleEndian>(&rt, &cut),
    ] {
        is_write_4(&rt, rt.alloc(), seen)?;
    }
    Ok(())
}

#[test]
fn zeros_are_read(rt: HostRuntime) {
    let node = zero_96();
    let Seen::Inode(zeros) = seen_as::<LittleEndian>(&rt, &node) else {
        panic!(rt; "no inode node");
    };
    equal(&rt, (zeros.offset, zeros.dsize), (104, 96));
    expect(&rt, matches!(zeros.fill, Fill::Zero));
}

/// Whether the header of a node that is put together says this length, and its node fails this
/// check.
fn is_damaged(rt: &impl Abort, node: &[u8], totlen: u32, which: u32) {
    let header = header_at::<LittleEndian>(node);
    equal(rt, header.map(|header| header.totlen), Some(totlen));
    is_seen(rt, node, ("damaged", which));
}

/// The data of a node with a wrong data_crc hide what they contain.
#[test]
fn a_hidden_entry(rt: HostRuntime) -> Result<(), Fail> {
    let mut node = Vec::new(rt.alloc());
    node.extend_from_slice(hidden_entry_front())?;
    node.extend_from_slice(entry_a())?;
    equal(&rt, node.len(), 112);
    is_damaged(&rt, &node, 109, 3);
    Ok(())
}

#[test]
fn a_name_of_255_bytes(rt: HostRuntime) -> Result<(), Fail> {
    let mut node = Vec::new(rt.alloc());
    node.extend_from_slice(long_name_front())?;
    node.resize(295, b'n')?;
    node.resize(296, 0xFF)?;
    is_damaged(&rt, &node, 295, 5);
    Ok(())
}
