//! The image of the nodes that matter, with ample memory and with one byte too few.

use crate::checks::{equal, expect};
use crate::images::{HOW, image};
use jcalls::{Fault, How, OK, SMALL, compact};
use std::alloc::Global;

/// The image, and then its node of `hello` again: of twins the last one matters.
const TWINS: &[u8] =
    b"\x85\x19\x01\xe0\x29\x00\x00\x00\x6d\xa6\x2f\xd7\x01\x00\x00\x00\x01\x00\x00\x00\x02\x00\x00\
\x00\x00\x00\x00\x00\x01\x08\x00\x00\x95\x02\x9b\x91\xce\x51\xb5\x3a\x61\xff\xff\xff\
\x85\x19\x02\xe0\x49\x00\x00\x00\xc0\x23\x9d\x6a\x02\x00\x00\x00\x01\x00\x00\x00\xa4\x81\x00\x00\
\x00\x00\x00\x00\x05\x00\x00\x00\x00\x00\x00\x00\x00\x00\x00\x00\x00\x00\x00\x00\x00\x00\x00\x00\
\x05\x00\x00\x00\x05\x00\x00\x00\x00\x00\x00\x00\x9b\x51\x32\xf0\xe0\xb6\xd7\x21hello\xff\xff\xff\
\x85\x19\x02\xe0\x4a\x00\x00\x00\x2e\x8c\x28\x78\x02\x00\x00\x00\x02\x00\x00\x00\xa4\x81\x00\x00\
\x00\x00\x00\x00\x0b\x00\x00\x00\x00\x00\x00\x00\x00\x00\x00\x00\x00\x00\x00\x00\x05\x00\x00\x00\
\x06\x00\x00\x00\x06\x00\x00\x00\x00\x00\x00\x00\x28\xad\x40\x6e\x28\xd5\xbc\x76 flash\xff\xff\
\x85\x19\x02\xe0\x49\x00\x00\x00\xc0\x23\x9d\x6a\x02\x00\x00\x00\x01\x00\x00\x00\xa4\x81\x00\x00\
\x00\x00\x00\x00\x05\x00\x00\x00\x00\x00\x00\x00\x00\x00\x00\x00\x00\x00\x00\x00\x00\x00\x00\x00\
\x05\x00\x00\x00\x05\x00\x00\x00\x00\x00\x00\x00\x9b\x51\x32\xf0\xe0\xb6\xd7\x21hello\xff\xff\xff";

/// The clean marker of an erased block.
const MARKER: &[u8] = b"\x85\x19\x03\x20\x0c\x00\x00\x00\xb1\xb0\x1e\xe4";

/// The status of `compact`, how many bytes it tells, and its fault.
fn told(
    alloc: Global,
    image: &[u8],
    how: How,
    blocks: u32,
    out: &mut [u8],
) -> (u32, usize, (u32, u32)) {
    let mut needed = 7;
    let mut fault = Fault {
        address: 5,
        detail: 6,
    };
    let status = compact(alloc, image, how, blocks, out, &mut needed, &mut fault);
    (status, needed, (fault.address, fault.detail))
}

/// A marker goes out, and then the nodes that matter, in the order of their addresses.
#[test]
fn what_matters_is_given(rt: HostRuntime) {
    let alloc = rt.alloc();
    let mut out = [b'#'; 210];
    let found = told(alloc, TWINS, HOW, 1, &mut out[..207]);
    equal(&rt, found, (SMALL, 208, (5, 6)));
    expect(&rt, out == [b'#'; 210]);
    let plain = How { through: 0, ..HOW };
    for how in [HOW, plain] {
        let found = told(alloc, TWINS, how, 1, &mut out);
        equal(&rt, found, (OK, 208, (5, 6)));
        expect(&rt, &out[..12] == MARKER);
        expect(&rt, out[12..56] == TWINS[..44]);
        expect(&rt, out[56..208] == TWINS[120..]);
        expect(&rt, &out[208..] == b"##".as_slice());
    }
    let found = told(alloc, image(), HOW, 1, &mut out);
    equal(&rt, found, (OK, 208, (5, 6)));
    expect(&rt, &out[12..208] == image());
}

#[test]
fn what_is_not_compacted_is_told(rt: HostRuntime) {
    let alloc = rt.alloc();
    let mut out = [b'#'; 210];
    let none = told(alloc, image(), HOW, 0, &mut out);
    equal(&rt, none, (23, 7, (0, 0)));
    let small = How { block: 4096, ..HOW };
    equal(
        &rt,
        told(alloc, image(), small, 1, &mut out),
        (23, 7, (0, 0)),
    );
    let odd = How { block: 8193, ..HOW };
    equal(&rt, told(alloc, image(), odd, 1, &mut out), (1, 7, (0, 0)));
    expect(&rt, out == [b'#'; 210]);
}
