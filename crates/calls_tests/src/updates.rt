//! What a listing writes into the openings of a device's image, with ample memory and with one byte
//! too few.

use crate::checks::{equal, expect};
use crate::images::{FAULT, HOW, image};
use crate::texts::begins_with;
use crate::writes::{LISTING, TAIL, TARGET, is, none, work};
use jcalls::{
    DeviceWork, Fault, FileRow, Files, How, OK, Place, SMALL, Target, Work, Written, read, update,
};
use std::alloc::Global;

fn own(work: Work<'_>) -> DeviceWork<'_> {
    DeviceWork { work, pack: 0 }
}

/// The status of `update`, and its fault.
fn told(
    alloc: Global,
    how: How,
    device: DeviceWork<'_>,
    out: &mut [u8],
    row: &mut Written,
) -> (u32, (u32, u32)) {
    let mut fault = Fault {
        address: 5,
        detail: 6,
    };
    let status = update(alloc, image(), how, device, out, row, &mut fault);
    (status, (fault.address, fault.detail))
}

/// The nodes go right behind those of the begun block, without a second marker.
#[test]
fn nodes_go_into_the_begun_block(rt: HostRuntime) {
    let alloc = rt.alloc();
    let mut out = [b'#'; 432];
    let mut row = none();
    let found = told(alloc, HOW, own(work(LISTING)), &mut out[..427], &mut row);
    equal(&rt, found, (SMALL, (5, 6)));
    expect(&rt, is(&row, 428, 2, 4, (0, 0, 0)));
    expect(&rt, out == [b'#'; 432]);
    let plain = How { through: 0, ..HOW };
    for how in [HOW, plain] {
        let mut row = none();
        let found = told(alloc, how, own(work(LISTING)), &mut out, &mut row);
        equal(&rt, found, (OK, (5, 6)));
        expect(&rt, is(&row, 428, 2, 4, (0, 0, 0)));
        equal(&rt, row.spare, 0);
        expect(&rt, begins_with(&out, image()));
        expect(&rt, out[196..428] == TAIL[12..]);
        expect(&rt, &out[428..] == b"####".as_slice());
    }
}

/// The operation after the first is refused; what the first wrote is given.
#[test]
fn a_stop_of_an_update_is_told(rt: HostRuntime) {
    let alloc = rt.alloc();
    let mut out = [b'#'; 432];
    let mut row = none();
    let listing = b"time 7\nowner 3 4\nmkdir 0750 /d\n\nremove /e\n";
    let found = told(alloc, HOW, own(work(listing)), &mut out, &mut row);
    equal(&rt, found, (OK, (5, 6)));
    expect(&rt, is(&row, 308, 1, 2, (31, 5, 3)));
    expect(&rt, out[196..308] == TAIL[12..124]);
    equal(&rt, out[308], b'#');
}

#[test]
fn updates_are_refused(rt: HostRuntime) {
    let alloc = rt.alloc();
    let out = &mut [];
    let mut row = none();
    let small = How { block: 4096, ..HOW };
    let found = told(alloc, small, own(work(LISTING)), out, &mut row);
    equal(&rt, found, (23, (0, 0)));
    let odd = How { block: 8193, ..HOW };
    let found = told(alloc, odd, own(work(LISTING)), out, &mut row);
    equal(&rt, found, (1, (0, 0)));
    let absent = work(b"time 1\nfile 0644 /f x\nfile 0644 /g y\n");
    let found = told(alloc, HOW, own(absent), out, &mut row);
    equal(&rt, found, (33, (3, 0)));
    let no_blocks = Work {
        target: Target {
            blocks: 0,
            ..TARGET
        },
        ..work(LISTING)
    };
    let found = told(alloc, HOW, own(no_blocks), out, &mut row);
    equal(&rt, found, (23, (0, 0)));
    let odd_page = Work {
        target: Target {
            page: 512,
            ..TARGET
        },
        ..work(LISTING)
    };
    let found = told(alloc, HOW, own(odd_page), out, &mut row);
    equal(&rt, found, (25, (0, 0)));
    expect(&rt, is(&row, 90, 91, 92, (93, 94, 95)));
}

/// A file `f` of 100 bytes that are alike.
const LONG: &[u8] = b"faaaaaaaaaaaaaaaaaaaaaaaaaaaaaaaaaaaaaaaaaaaaaaaaaa\
aaaaaaaaaaaaaaaaaaaaaaaaaaaaaaaaaaaaaaaaaaaaaaaaaa";

const LONG_ROWS: &[FileRow] = &[FileRow {
    name_at: 0,
    name_len: 1,
    at: 1,
    length: 100,
}];

/// Its bytes are compressed if that is asked, and read back either way.
#[test]
fn data_are_compressed_if_asked(rt: HostRuntime) {
    let alloc = rt.alloc();
    let long = Work {
        target: TARGET,
        listing: b"time 7\nfile 0640 /f f\n",
        files: Files {
            bytes: LONG,
            rows: LONG_ROWS,
        },
    };
    let place = Place {
        number: 3,
        offset: 0,
    };
    for (pack, least, most) in [(0, 408, 408), (1, 300, 340)] {
        let mut out = [b'#'; 432];
        let mut row = none();
        let device = DeviceWork { work: long, pack };
        let found = told(alloc, HOW, device, &mut out, &mut row);
        equal(&rt, found, (OK, (5, 6)));
        expect(&rt, least <= row.bytes && row.bytes <= most);
        equal(&rt, (row.accepted, row.nodes), (1, 2));
        let made = &out[..(row.bytes as usize).min(432)];
        let mut bytes = [b'#'; 101];
        let mut got = 7;
        let mut fault = FAULT;
        let status = read(alloc, made, HOW, place, &mut bytes, &mut got, &mut fault);
        equal(&rt, (status, got), (OK, 100));
        expect(&rt, begins_with(&bytes, &LONG[1..]));
    }
}
