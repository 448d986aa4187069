//! The numbers of the methods, and worked rows: data and all of their content, by hand.

use crate::checks::{equal_at, expect_at};
use jcompr::{DataFault, Method, adler, decompress, mirrored};
use std::alloc::Global;
use std::test::Fail;

const RUN: &[u8] = b"aaaaaaaaaaaaaaaaaaaa";

const THREES: &[u8] = b"abcabcabcabcabcabc";

const WORDS: &[u8] = b"abcdefgh abcd efgh abcdefgh xyzabcd abefgh abcdefghabcdefgh";

/// Data, the length that is asked for, and the content.
fn contents() -> &'static [(Method, &'static [u8], usize, &'static [u8])] {
    &[
        (Method::Rtime, b"a\x13", 20, RUN),
        (Method::Rtime, b"a\x00b\x00c\x0f", 18, THREES),
        (Method::Rtime, b"", 0, b""),
        (Method::Zlib, b"\x78\x9C\x03\x00\x00\x00\x00\x01", 0, b""),
        (
            Method::Zlib,
            b"\x78\x9C\x4B\x4C\xC4\x04\x00\x4F\xA6\x07\x95",
            20,
            RUN,
        ),
        (
            Method::Zlib,
            b"\x78\x01\x01\x14\x00\xEB\xFFaaaaaaaaaaaaaaaaaaaa\x4F\xA6\x07\x95",
            20,
            RUN,
        ),
        (
            Method::Zlib,
            b"\x78\x9C\x4B\x4C\x4A\x4E\x44\x45\x00\x41\x7C\x06\xE5",
            18,
            THREES,
        ),
        (
            Method::Zlib,
            b"\x78\x9C\x4B\x4C\x4A\x4E\x44\x45\x00\x41\x7C\x06\xE5\xFF",
            18,
            THREES,
        ),
        (Method::Lzo, b"\x12a\x31\x00\x00\x11\x00\x00", 20, RUN),
        (Method::Lzo, b"\x14abc\x2D\x08\x00\x11\x00\x00", 18, THREES),
        (
            Method::Lzo,
            b"\x25aaaaaaaaaaaaaaaaaaaa\x11\x00\x00",
            20,
            RUN,
        ),
        (
            Method::Lzo,
            b"\x1Aabcdefgh\x20a\x01\x20\x27\x24\x00\x83\x01xyz\x96\x02ab\x2B\x5C\x00\xFC\x00\
              \x11\x00\x00",
            59,
            WORDS,
        ),
        (Method::Lzo, b"\x11\x00\x00", 0, b""),
        (Method::Lzma, b"\x00\x00\x00\x00\x00", 0, b""),
        (Method::Lzma, b"\x00\x30\xEE\x8D\xF0\x00\x00", 20, RUN),
        (
            Method::Lzma,
            b"\x00\x30\x99\xAB\xDD\xC0\xCB\x07\x00free",
            18,
            THREES,
        ),
    ]
}

/// Data that are refused for this length.
fn refused() -> &'static [(Method, &'static [u8], usize)] {
    &[
        (Method::Rtime, b"a\x13", 19),
        (Method::Rtime, b"a", 1),
        (
            Method::Zlib,
            b"\x78\x9C\x4B\x4C\xC4\x04\x00\x4F\xA6\x07\x95",
            19,
        ),
        (
            Method::Zlib,
            b"\x78\x9C\x4B\x4C\xC4\x04\x00\x4F\xA6\x07\x95",
            21,
        ),
        (
            Method::Zlib,
            b"\x78\x9C\x4B\x4C\x4A\x4E\x44\x45\x00\x41\x7C\x06\xE4",
            18,
        ),
        (Method::Zlib, b"", 0),
        (Method::Lzo, b"\x11\x00\x00\x00", 0),
        (Method::Lzma, b"\x00\x30\xEE\x8D\xF0\x00\x00", 19),
        (Method::Lzma, b"\x00\x30\xEE\x8D\xF0\x00\x00", 21),
        (Method::Lzma, b"\x00\x30\xEE\x8D\xF0\x00\x01", 20),
        (Method::Lzma, b"\x00\x00\x00\x00", 0),
    ]
}

/// Whether data have just this content.
fn has_content(
    alloc: Global,
    method: Method,
    data: &[u8],
    size: usize,
    content: Option<&[u8]>,
) -> bool {
    let mut out = Vec::new(alloc);
    match (decompress(alloc, method, data, size, &mut out), content) {
        (Ok(()), Some(content)) => out.as_slice() == content,
        (Err(DataFault::Wrong), None) => out.is_empty(),
        _ => false,
    }
}

#[test]
fn worked_rows(rt: HostRuntime) {
    for &(method, data, size, content) in contents() {
        let is_so = has_content(rt.alloc(), method, data, size, Some(content));
        expect_at(&rt, is_so, (method, data, size));
    }
    for &(method, data, size) in refused() {
        let is_so = has_content(rt.alloc(), method, data, size, None);
        expect_at(&rt, is_so, (method, data, size));
    }
}

#[test]
fn numbers_of_methods(rt: HostRuntime) {
    for number in 0..=255u8 {
        let wanted = match number {
            2 => Some(Method::Rtime),
            6 => Some(Method::Zlib),
            7 => Some(Method::Lzo),
            8 => Some(Method::Lzma),
            _ => None,
        };
        equal_at(&rt, Method::of(number), wanted, number);
    }
}

fn faults() -> &'static [(DataFault, &'static str)] {
    &[
        (
            DataFault::Wrong,
            "the data do not give that number of bytes",
        ),
        (DataFault::OutOfMemory, "out of memory"),
    ]
}

#[test]
fn texts_of_faults(rt: HostRuntime) -> Result<(), Fail> {
    for &(fault, text) in faults() {
        let shown = format!(in rt.alloc(); "{fault}")?;
        expect_at(&rt, shown.as_str() == text, text);
    }
    Ok(())
}

fn sums() -> &'static [(&'static [u8], u64)] {
    &[
        (b"", 0x0000_0001),
        (b"a", 0x0062_0062),
        (THREES, 0x417C_06E5),
        (b"Wikipedia", 0x11E6_0398),
    ]
}

/// Checksums by zlib.
#[test]
fn checksums(rt: HostRuntime) {
    for &(bytes, wanted) in sums() {
        equal_at(&rt, adler(bytes), wanted, wanted);
    }
}

/// Codes with their last bit first, by hand.
#[test]
fn mirrored_codes(rt: HostRuntime) {
    for (code, length, wanted) in [
        (0b1, 1, 0b1),
        (0b011, 3, 0b110),
        (0b0_1011, 5, 0b1_1010),
        (0b000_0000_0000_0001, 15, 0b100_0000_0000_0000),
    ] {
        equal_at(&rt, mirrored(code, length), wanted, (code, length));
    }
}
