//! A mount that is kept: of the image of one file, `/a`, with `hello flash`.

use crate::calls::NO_STAT;
use crate::checks::{equal, expect};
use crate::images::{FAULT, HOW, image};
use jcalls::{Handle, How, OK, Place, close, find, object, open, read_kept};
use std::alloc::Global;

fn found(alloc: Global, handle: &mut Handle, path: &[u8]) -> (u32, u32) {
    let mut number = 77;
    let mut fault = FAULT;
    (find(alloc, handle, path, &mut number, &mut fault), number)
}

fn seen(alloc: Global, handle: &mut Handle, number: u32) -> (u32, u32, u32) {
    let mut row = NO_STAT;
    let status = object(alloc, handle, number, &mut row);
    (status, row.number, row.size)
}

#[test]
fn a_mount_is_kept(rt: HostRuntime) {
    let alloc = rt.alloc();
    let mut handle = Handle::closed();
    let mut fault = FAULT;
    equal(&rt, open(alloc, image(), HOW, &mut handle, &mut fault), OK);
    equal(&rt, found(alloc, &mut handle, b"/a"), (OK, 2));
    equal(&rt, found(alloc, &mut handle, b"/b"), (11, 77));
    equal(&rt, found(alloc, &mut handle, b"/a/b"), (12, 77));
    equal(&rt, seen(alloc, &mut handle, 2), (OK, 2, 11));
    equal(&rt, seen(alloc, &mut handle, 3), (11, 0, 0));
    let place = Place {
        number: 2,
        offset: 3,
    };
    let mut out = *b"##########";
    let mut got = 77;
    equal(
        &rt,
        read_kept(alloc, &mut handle, place, &mut out, &mut got),
        OK,
    );
    equal(&rt, got, 8);
    expect(&rt, out == *b"lo flash##");
    // what does not mount leaves it
    let odd = How { block: 8193, ..HOW };
    equal(&rt, open(alloc, image(), odd, &mut handle, &mut fault), 1);
    equal(&rt, found(alloc, &mut handle, b"/a"), (OK, 2));
    equal(&rt, close(alloc, &mut handle), OK);
}

#[test]
fn a_closed_one_answers_nothing(rt: HostRuntime) {
    let alloc = rt.alloc();
    let mut handle = Handle::closed();
    let mut fault = FAULT;
    equal(&rt, close(alloc, &mut handle), OK);
    equal(&rt, open(alloc, image(), HOW, &mut handle, &mut fault), OK);
    // a second mount takes the place of the first
    equal(&rt, open(alloc, image(), HOW, &mut handle, &mut fault), OK);
    equal(&rt, close(alloc, &mut handle), OK);
    equal(&rt, found(alloc, &mut handle, b"/a"), (34, 77));
    equal(&rt, seen(alloc, &mut handle, 2), (34, 0, 0));
    let place = Place {
        number: 2,
        offset: 0,
    };
    let mut out = *b"##";
    let mut got = 77;
    equal(
        &rt,
        read_kept(alloc, &mut handle, place, &mut out, &mut got),
        34,
    );
    equal(&rt, got, 77);
    expect(&rt, out == *b"##");
}
