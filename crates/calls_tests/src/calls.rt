//! Each call on an image of one file, `/a`, in two nodes, as docs/FORMAT.md writes it down; and on
//! the same with one byte of it turned.

use crate::checks::{equal, expect};
use crate::images::{FAULT, HOW, image};
use jcalls::{
    Counted, Entry, Fault, FindingRow, How, InfoRow, Needed, NodeRow, OK, Place, Request, SMALL,
    Stat, TOO_LARGE, check, compress, crc, decompress, findings, info, nodes, read, read_many,
    stat, tree,
};
use std::alloc::Global;

pub(crate) const NO_STAT: Stat = Stat {
    number: 0,
    mode: 0,
    uid: 0,
    gid: 0,
    size: 0,
    atime: 0,
    mtime: 0,
    ctime: 0,
};

const NO_ENTRY: Entry = Entry {
    directory: 0,
    is_there: 0,
    object: NO_STAT,
    name_at: 0,
    name_len: 0,
};

#[test]
fn it_is_counted(rt: HostRuntime) {
    let mut counted = Counted {
        blocks: 9,
        entries: 9,
        inodes: 9,
        findings: 9,
    };
    let mut fault = FAULT;
    equal(&rt, check(image(), HOW, &mut counted, &mut fault), OK);
    equal(&rt, (counted.blocks, counted.entries), (1, 1));
    equal(&rt, (counted.inodes, counted.findings), (2, 0));
    let odd = How { block: 8193, ..HOW };
    equal(&rt, check(image(), odd, &mut counted, &mut fault), 1);
    equal(&rt, counted.inodes, 2);
    // CRC-32 without the two complements, of the usual nine digits
    equal(&rt, crc(b"123456789"), 0x2DFD_2D88);
}

fn none() -> InfoRow {
    InfoRow {
        bytes: 0,
        order: 9,
        least_block: 0,
        greatest_block: 0,
        highest_inode: 0,
        highest_version: 0,
        spare: 0,
        markers: 0,
        nodes: 0,
        other_order: 0,
        entries: 0,
        inodes: 0,
        obsolete: 0,
        damaged: 0,
        other: 0,
        data_none: 0,
        data_zero: 0,
        data_rtime: 0,
        data_zlib: 0,
        data_lzo: 0,
        data_lzma: 0,
        data_other: 0,
    }
}

#[test]
fn it_tells_of_itself(rt: HostRuntime) {
    let mut told = none();
    equal(&rt, info(image(), &mut told), OK);
    equal(&rt, (told.bytes, told.order), (196, 1));
    equal(&rt, (told.least_block, told.greatest_block), (0, 0));
    equal(&rt, (told.nodes, told.entries, told.inodes), (3, 1, 2));
    equal(&rt, (told.highest_inode, told.highest_version), (2, 2));
    equal(&rt, (told.data_none, told.other_order), (2, 0));
    equal(&rt, TOO_LARGE, 2);
}

/// What a path leads to: the status, and the number, the mode and the size.
fn found(alloc: Global, how: How, path: &[u8]) -> (u32, u32, u32, u32) {
    let mut row = NO_STAT;
    let mut fault = FAULT;
    let status = stat(alloc, image(), how, path, &mut row, &mut fault);
    (status, row.number, row.mode, row.size)
}

#[test]
fn its_paths_lead(rt: HostRuntime) {
    let alloc = rt.alloc();
    let file = (OK, 2, 0o100_644, 11);
    equal(&rt, found(alloc, HOW, b"/a"), file);
    equal(&rt, found(alloc, How { through: 0, ..HOW }, b"/a"), file);
    equal(&rt, found(alloc, HOW, b"/"), (OK, 1, 0o040_755, 0));
    equal(&rt, found(alloc, HOW, b"a"), (10, 0, 0, 0));
    equal(&rt, found(alloc, HOW, b"/b"), (11, 0, 0, 0));
    equal(&rt, found(alloc, HOW, b"/a/b"), (12, 0, 0, 0));
    // in the other order it has no node
    equal(
        &rt,
        found(alloc, How { big: 1, ..HOW }, b"/a"),
        (11, 0, 0, 0),
    );
}

#[test]
fn its_bytes_are_read(rt: HostRuntime) {
    let place = Place {
        number: 2,
        offset: 3,
    };
    let mut out = *b"##########";
    let mut got = 77;
    let mut fault = FAULT;
    let status = read(
        rt.alloc(),
        image(),
        HOW,
        place,
        &mut out,
        &mut got,
        &mut fault,
    );
    equal(&rt, (status, got), (OK, 8));
    expect(&rt, out == *b"lo flash##");
}

#[test]
fn its_names_are_given(rt: HostRuntime) {
    let mut rows = [NO_ENTRY; 2];
    let mut names = *b"###";
    let mut needed = Needed { rows: 7, bytes: 7 };
    let mut fault = FAULT;
    let alloc = rt.alloc();
    let status = tree(
        alloc,
        image(),
        HOW,
        &mut [],
        &mut names,
        &mut needed,
        &mut fault,
    );
    equal(&rt, (status, needed.rows, needed.bytes), (SMALL, 1, 1));
    let status = tree(
        alloc,
        image(),
        HOW,
        &mut rows,
        &mut names,
        &mut needed,
        &mut fault,
    );
    equal(&rt, (status, needed.rows, needed.bytes), (OK, 1, 1));
    expect(&rt, names == *b"a##");
    equal(&rt, (rows[0].directory, rows[0].is_there), (1, 1));
    equal(&rt, (rows[0].object.number, rows[0].object.size), (2, 11));
    equal(&rt, (rows[0].name_at, rows[0].name_len), (0, 1));
    equal(&rt, (rows[1].directory, rows[1].is_there), (0, 0));
}

/// The image decompressed is a marker and then its nodes; compressed it is as long, since so few
/// bytes get no shorter.
#[test]
fn it_is_converted(rt: HostRuntime) {
    let alloc = rt.alloc();
    let mut out = [b'#'; 210];
    let mut needed = 7;
    let mut fault = FAULT;
    let status = decompress(
        alloc,
        image(),
        HOW,
        &mut out[..207],
        &mut needed,
        &mut fault,
    );
    equal(&rt, (status, needed), (SMALL, 208));
    expect(&rt, out == [b'#'; 210]);
    let status = decompress(alloc, image(), HOW, &mut out, &mut needed, &mut fault);
    equal(&rt, (status, needed), (OK, 208));
    expect(&rt, &out[12..208] == image());
    expect(&rt, &out[208..] == b"##".as_slice());
    let mut packed = [b'#'; 210];
    let status = compress(alloc, image(), HOW, &mut packed, &mut needed, &mut fault);
    equal(&rt, (status, needed), (OK, 208));
    expect(&rt, packed == out);
    let small = How { block: 4096, ..HOW };
    let status = compress(alloc, image(), small, &mut packed, &mut needed, &mut fault);
    equal(&rt, (status, needed), (23, 208));
}

fn request(number: u32, offset: u64, length: u64) -> Request {
    Request {
        number,
        spare: 5,
        offset,
        length,
        at: 99,
        got: 99,
    }
}

/// Two parts of the file, between an object that is not there and the root, which has no bytes.
#[test]
fn many_are_read(rt: HostRuntime) {
    let alloc = rt.alloc();
    let mut requests = [
        request(2, 3, 100),
        request(9, 0, 100),
        request(1, 0, 100),
        request(2, 0, 4),
        request(2, 11, 1),
    ];
    let mut out = *b"##############";
    let mut needed = 7;
    let mut fault = FAULT;
    let status = read_many(
        alloc,
        image(),
        HOW,
        &mut requests,
        &mut out[..11],
        &mut needed,
        &mut fault,
    );
    equal(&rt, (status, needed), (SMALL, 12));
    expect(&rt, out == *b"##############");
    equal(&rt, (requests[0].at, requests[0].got), (99, 99));
    let status = read_many(
        alloc,
        image(),
        HOW,
        &mut requests,
        &mut out,
        &mut needed,
        &mut fault,
    );
    equal(&rt, (status, needed), (OK, 12));
    expect(&rt, out == *b"lo flashhell##");
    equal(&rt, (requests[0].at, requests[0].got), (0, 8));
    equal(&rt, (requests[1].at, requests[1].got), (8, 0));
    equal(&rt, (requests[2].at, requests[2].got), (8, 0));
    equal(&rt, (requests[3].at, requests[3].got), (8, 4));
    equal(&rt, (requests[4].at, requests[4].got), (12, 0));
    equal(&rt, (requests[3].number, requests[3].length), (2, 4));
    equal(&rt, requests[3].spare, 5);
}

const NO_FINDING: FindingRow = FindingRow {
    address: 9,
    length: 9,
    kind: 9,
    detail: 9,
};

/// The image with a byte turned in the data of its second inode node, and a word of dirt behind it.
#[test]
fn its_findings_are_given(rt: HostRuntime) {
    let mut bytes = [0; 200];
    for (to, from) in bytes.iter_mut().zip(image()) {
        *to = *from;
    }
    bytes[190] ^= 1;
    let mut rows = [NO_FINDING; 3];
    let mut needed = 7;
    let mut fault = FAULT;
    let status = findings(&bytes, HOW, &mut rows[..1], &mut needed, &mut fault);
    equal(&rt, (status, needed), (SMALL, 2));
    equal(&rt, rows[0].kind, 9);
    let status = findings(&bytes, HOW, &mut rows, &mut needed, &mut fault);
    equal(&rt, (status, needed), (OK, 2));
    equal(&rt, (rows[0].address, rows[0].length), (120, 76));
    equal(&rt, (rows[0].kind, rows[0].detail), (1, 3));
    equal(&rt, (rows[1].address, rows[1].length), (196, 4));
    equal(&rt, (rows[1].kind, rows[1].detail), (5, 0));
    equal(&rt, rows[2].kind, 9);
    let odd = How { block: 8193, ..HOW };
    let status = findings(&bytes, odd, &mut rows, &mut needed, &mut fault);
    equal(&rt, (status, needed), (1, 2));
    // in the other order all is of it
    let big = How { big: 1, ..HOW };
    let status = findings(image(), big, &mut rows, &mut needed, &mut fault);
    equal(&rt, status, SMALL);
}

fn no_node() -> NodeRow {
    NodeRow {
        address: 9,
        length: 9,
        kind: 9,
        detail: 9,
        number: 9,
        version: 9,
        directory: 9,
        entry_time: 9,
        entry_type: 9,
        mode: 9,
        uid: 9,
        gid: 9,
        size: 9,
        atime: 9,
        mtime: 9,
        ctime: 9,
        offset: 9,
        range: 9,
        method: 9,
        spare: 9,
        stored: 9,
    }
}

#[test]
fn its_nodes_are_given(rt: HostRuntime) {
    let mut rows = [no_node(); 4];
    let mut needed = 7;
    let mut fault = FAULT;
    let status = nodes(image(), HOW, &mut rows[..2], &mut needed, &mut fault);
    equal(&rt, (status, needed), (SMALL, 3));
    equal(&rt, rows[0].kind, 9);
    let status = nodes(image(), HOW, &mut rows, &mut needed, &mut fault);
    equal(&rt, (status, needed), (OK, 3));
    let [entry, first, second, none] = rows;
    equal(&rt, (entry.address, entry.length), (0, 44));
    equal(&rt, (entry.kind, entry.number), (1, 2));
    equal(&rt, (entry.directory, entry.entry_type), (1, 8));
    equal(&rt, (entry.stored, entry.mode), (1, 0));
    equal(&rt, (first.address, first.length), (44, 76));
    equal(&rt, (first.kind, first.version), (2, 1));
    equal(&rt, (first.mode, first.size), (0o100_644, 5));
    equal(&rt, (second.address, second.version), (120, 2));
    equal(&rt, (second.offset, second.range), (5, 6));
    equal(&rt, (second.method, second.stored), (0, 6));
    equal(&rt, none.kind, 9);
}
