//! What a listing writes to an image, and what a stop of it leaves, with ample memory and with one
//! byte too few.

use crate::checks::{equal, expect};
use crate::images::{FAULT, HOW, image};
use crate::texts::begins_with;
use jcalls::{Fault, FileRow, Files, How, OK, SMALL, Target, Work, Written, append, cuts};
use std::alloc::Global;

pub(crate) const TARGET: Target = Target {
    blocks: 4,
    page: 4096,
};

/// Files `x` and `yy`, with the bytes `hello` and `other`, and another `yy`, which does not count.
const BYTES: &[u8] = b"xhelloyyother";

const ROWS: &[FileRow] = &[
    FileRow {
        name_at: 0,
        name_len: 1,
        at: 1,
        length: 5,
    },
    FileRow {
        name_at: 6,
        name_len: 2,
        at: 8,
        length: 5,
    },
    FileRow {
        name_at: 6,
        name_len: 2,
        at: 1,
        length: 4,
    },
];

pub(crate) const LISTING: &[u8] = b"time 7\nowner 3 4\nmkdir 0750 /d\nfile 0640 /f yy\n";

pub(crate) fn work(listing: &[u8]) -> Work<'_> {
    Work {
        target: TARGET,
        listing,
        files: Files {
            bytes: BYTES,
            rows: ROWS,
        },
    }
}

/// What the listing writes from the second block on: a marker, a directory and its name, a file and
/// its name, as docs/FORMAT.md writes them down.
pub(crate) const TAIL: &[u8] = b"\x85\x19\x03\x20\x0c\x00\x00\x00\xb1\xb0\x1e\xe4\
\x85\x19\x02\xe0\x44\x00\x00\x00\x1d\xfb\xf7\x98\
\x03\x00\x00\x00\x01\x00\x00\x00\xe8\x41\x00\x00\x03\x00\x04\x00\x00\x00\x00\x00\x07\x00\x00\x00\
\x07\x00\x00\x00\x07\x00\x00\x00\x00\x00\x00\x00\x00\x00\x00\x00\x00\x00\x00\x00\x00\x00\x00\x00\
\x00\x00\x00\x00\xaa\x62\x5b\x29\
\x85\x19\x01\xe0\x29\x00\x00\x00\x6d\xa6\x2f\xd7\x01\x00\x00\x00\
\x02\x00\x00\x00\x03\x00\x00\x00\x07\x00\x00\x00\x01\x04\x00\x00\x75\x0a\x29\x20\x41\xa5\xdf\x4a\
\x64\xff\xff\xff\
\x85\x19\x02\xe0\x49\x00\x00\x00\xc0\x23\x9d\x6a\x04\x00\x00\x00\x01\x00\x00\x00\
\xa0\x81\x00\x00\x03\x00\x04\x00\x05\x00\x00\x00\x07\x00\x00\x00\x07\x00\x00\x00\x07\x00\x00\x00\
\x00\x00\x00\x00\x05\x00\x00\x00\x05\x00\x00\x00\x00\x00\x00\x00\x3d\xc2\x7a\x1f\x66\xc2\x4e\x5e\
\x6f\x74\x68\x65\x72\xff\xff\xff\
\x85\x19\x01\xe0\x29\x00\x00\x00\x6d\xa6\x2f\xd7\x01\x00\x00\x00\
\x03\x00\x00\x00\x04\x00\x00\x00\x07\x00\x00\x00\x01\x08\x00\x00\x0f\x8b\xc3\xf3\x6d\xc4\xd1\xa4\
\x66\xff\xff\xff";

const CUTS: &[u8] = b"0000200c 68 line 3 step 1 of 2 stands from 00002050
00002050 41 line 3 step 2 of 2 stands from 00002079
0000207c 73 line 4 step 1 of 2 stands from 000020c5
000020c8 41 line 4 step 2 of 2 stands from 000020f1
total operations 2 steps 4 from 00002000 to 000020f4 weak 0
";

/// The status of `cuts`, how many bytes it tells, and its fault.
fn cut(alloc: Global, how: How, work: Work<'_>, out: &mut [u8]) -> (u32, usize, (u32, u32)) {
    let mut needed = 7;
    let mut fault = Fault {
        address: 5,
        detail: 6,
    };
    let status = cuts(alloc, image(), how, work, out, &mut needed, &mut fault);
    (status, needed, (fault.address, fault.detail))
}

#[test]
fn stops_are_told(rt: HostRuntime) {
    let alloc = rt.alloc();
    let long = CUTS.len();
    let mut out = [b'#'; 300];
    let found = cut(alloc, HOW, work(LISTING), &mut out[..long - 1]);
    equal(&rt, found, (SMALL, long, (5, 6)));
    expect(&rt, out == [b'#'; 300]);
    let found = cut(alloc, HOW, work(LISTING), &mut out);
    equal(&rt, found, (OK, long, (5, 6)));
    expect(&rt, begins_with(&out, CUTS));
    expect(&rt, out[long..].iter().all(|byte| *byte == b'#'));
}

/// What is refused before an operation, and at one.
#[test]
fn stops_are_refused(rt: HostRuntime) {
    let alloc = rt.alloc();
    let out = &mut [];
    let odd = work(b"\n\nmkdir 0755\n");
    equal(&rt, cut(alloc, HOW, odd, out), (30, 7, (3, 6)));
    let absent = work(b"time 1\nfile 0644 /f x\nfile 0644 /g y\n");
    equal(&rt, cut(alloc, HOW, absent, out), (33, 7, (3, 0)));
    let taken = work(b"time 1\nmkdir 0755 /d\nmkdir 0755 /a\n");
    equal(&rt, cut(alloc, HOW, taken, out), (31, 7, (3, 5)));
    let page = Work {
        target: Target {
            page: 512,
            ..TARGET
        },
        ..work(LISTING)
    };
    equal(&rt, cut(alloc, HOW, page, out), (25, 7, (0, 0)));
    let files = Files {
        bytes: &BYTES[..12],
        rows: ROWS,
    };
    let short = Work {
        files,
        ..work(LISTING)
    };
    equal(&rt, cut(alloc, HOW, short, out), (32, 7, (1, 0)));
    let full = Work {
        target: Target {
            blocks: 1,
            ..TARGET
        },
        ..work(LISTING)
    };
    equal(&rt, cut(alloc, HOW, full, out), (24, 7, (3, 0)));
    let small = How { block: 4096, ..HOW };
    equal(&rt, cut(alloc, small, work(LISTING), out), (23, 7, (0, 0)));
    let odd = How { block: 8193, ..HOW };
    equal(&rt, cut(alloc, odd, work(LISTING), out), (1, 7, (0, 0)));
}

pub(crate) fn none() -> Written {
    Written {
        bytes: 90,
        accepted: 91,
        nodes: 92,
        stop: 93,
        line: 94,
        detail: 95,
        spare: 96,
    }
}

pub(crate) fn is(
    row: &Written,
    bytes: u64,
    accepted: u64,
    nodes: u64,
    stop: (u32, u32, u32),
) -> bool {
    (row.bytes, row.accepted, row.nodes) == (bytes, accepted, nodes)
        && (row.stop, row.line, row.detail) == stop
}

#[test]
fn nodes_are_appended(rt: HostRuntime) {
    let alloc = rt.alloc();
    let mut out = [b'#'; 8440];
    let mut row = none();
    let mut fault = FAULT;
    let status = append(
        alloc,
        image(),
        HOW,
        work(LISTING),
        &mut out[..8435],
        &mut row,
        &mut fault,
    );
    equal(&rt, status, SMALL);
    expect(&rt, is(&row, 8436, 2, 4, (0, 0, 0)));
    expect(&rt, out == [b'#'; 8440]);
    let status = append(
        alloc,
        image(),
        HOW,
        work(LISTING),
        &mut out,
        &mut row,
        &mut fault,
    );
    equal(&rt, status, OK);
    expect(&rt, is(&row, 8436, 2, 4, (0, 0, 0)));
    expect(&rt, begins_with(&out, image()));
    expect(&rt, out[196..8192].iter().all(|byte| *byte == 0xFF));
    expect(&rt, &out[8192..8436] == TAIL);
    expect(&rt, &out[8436..] == b"####".as_slice());
}

/// The operation after the first is refused; what the first wrote is given.
#[test]
fn a_stop_is_told(rt: HostRuntime) {
    let alloc = rt.alloc();
    let mut out = [b'#'; 8440];
    let mut row = none();
    let mut fault = FAULT;
    let listing = b"time 7\nowner 3 4\nmkdir 0750 /d\n\nremove /e\n";
    let status = append(
        alloc,
        image(),
        HOW,
        work(listing),
        &mut out,
        &mut row,
        &mut fault,
    );
    equal(&rt, status, OK);
    expect(&rt, is(&row, 8316, 1, 2, (31, 5, 3)));
    expect(&rt, out[8192..8316] == TAIL[..124]);
    equal(&rt, out[8316], b'#');
    let mut row = none();
    let status = append(
        alloc,
        image(),
        How { block: 4096, ..HOW },
        work(listing),
        &mut out,
        &mut row,
        &mut fault,
    );
    equal(&rt, status, 23);
    expect(&rt, is(&row, 90, 91, 92, (93, 94, 95)));
}
