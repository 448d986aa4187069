//! A growth that is refused is told as such.

use crate::checks::equal_at;
use crate::compr::answers::answer;
use jcompr::{DataFault, Method};
use std::alloc::Global;
use std::process::Abort;

/// A block of its own codes, of 96 bytes.
const TEXT: &[u8] =
    b"\x78\xDA\x4D\x8C\x41\x0A\x80\x40\x0C\x03\xBF\x92\xAF\x45\x1B\x11\xEC\xB6\xB0\x54\
    \xC5\xDF\x2B\xCB\x1E\xBC\x25\x64\x32\xB9\xA1\xE5\x19\x05\xC2\x58\x44\xA4\x09\xAE\
    \x4B\x8E\x5B\xEC\x33\x2A\xAA\x3F\x58\x3C\xD7\xE3\x4F\xD4\xAE\x39\x05\x9B\x46\x1D\
    \xA7\x61\x62\xD8\xA7\x7E\x01\x92\x66\x22\x91";

/// 70,000 bytes 0x61, more than are reserved at once.
const LONG: &[u8] =
    b"\x78\x9C\xED\xC1\x31\x01\x00\x00\x00\xC2\xA0\xAC\xEB\x5F\xC2\x12\x9E\x40\x01\x00\
    \x00\x00\x00\x00\x00\x00\x00\x00\x00\x00\x00\x00\x00\x00\x00\x00\x00\x00\x00\x00\
    \x00\x00\x00\x00\x00\x00\x00\x00\x00\x00\x00\x00\x00\x00\x00\x00\x00\x00\x00\x00\
    \x00\x00\x00\x00\x00\x00\x00\x00\x00\x00\x00\x00\x00\x00\x00\x00\x00\x00\x00\x00\
    \x00\x00\x00\x00\x00\x00\x6F\x03\x47\x0A\xA1\x7A";

/// 70,000 bytes 0x61 by LZMA.
const LETTERS: &[u8] =
    b"\x00\x30\xF0\x7B\xC1\xFE\xAE\x8F\xA1\x40\x13\xBD\x53\x36\x9D\xB4\x18\x63\x6B\xA1\
    \xEE\x71\xF7\xE6\x8D\x7B\x7D\x65\xF9\xD6\x31\x7D\x20\x98\x30\x08\xD0\xAA\x63\x74\
    \x59\x0F\xA5\x2B\xC9\xEA\xDD\xE2\x79\x08\x7C\xDE\xA8\x9A\x58\x55\x0F\x3A\x12\xB5\
    \x00\x00";

/// 68,885 bytes 0x61: a literal, and a copy whose length takes 271 bytes.
fn long_copy() -> [u8; 279] {
    let mut data = [0; 279];
    data[0] = 0x12;
    data[1] = 0x61;
    data[2] = 0x20;
    data[273] = 0x01;
    data[276] = 0x11;
    data
}

/// Data, the length that is asked for, and the checksum of their content; none where they are
/// refused.
fn rows() -> &'static [(Method, &'static [u8], usize, Option<u32>)] {
    &[
        (Method::Rtime, b"a\x13", 20, Some(0x29BA_1043)),
        (Method::Rtime, b"a\x13", 21, None),
        (Method::Zlib, TEXT, 96, Some(0x4C22_6E7D)),
        (Method::Zlib, TEXT, 95, None),
        (Method::Zlib, LONG, 70_000, Some(0xB480_2AD8)),
        (Method::Lzma, LETTERS, 70_000, Some(0xB480_2AD8)),
        (Method::Lzma, LETTERS, 69_999, None),
    ]
}

/// Stops the test unless data have a content of this checksum, or none. Where memory is refused,
/// they are asked for again.
fn agrees(
    rt: &impl Abort,
    alloc: Global,
    method: Method,
    data: &[u8],
    size: usize,
    wanted: Option<u32>,
) {
    let mut found = answer(rt, alloc, method, data, size);
    if found == Err(DataFault::OutOfMemory) {
        found = answer(rt, alloc, method, data, size);
    }
    equal_at(rt, found, Ok(wanted), (method, size));
}

/// Passes with each allocation failing in turn too: memory is then blamed and not the data, nothing
/// is appended, and the next call, with memory, answers as if there had been none before.
#[test]
fn refused_growth_is_want_of_memory(rt: HostRuntime) {
    let alloc = rt.alloc();
    for &(method, data, size, wanted) in rows() {
        agrees(&rt, alloc, method, data, size, wanted);
    }
}

#[test]
fn refused_growth_of_long_contents(rt: HostRuntime) {
    let (alloc, copy) = (rt.alloc(), long_copy());
    let (first, second) = (Some(0x070F_8C2E), Some(0x8F28_43BF));
    agrees(&rt, alloc, Method::Rtime, &[0xFF; 548], 70_144, first);
    agrees(&rt, alloc, Method::Lzo, &copy, 68_885, second);
    agrees(&rt, alloc, Method::Lzo, &copy, 68_886, None);
}
