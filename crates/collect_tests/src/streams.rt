//! Compressed data and what they stand for.

use crate::images::Stream;

const RUN_A: &[u8] = b"aaaaaaaaaaaaaaaaaaaa";

/// Twenty `a`: the byte, and that 19 bytes from there on are repeated.
pub(crate) const RTIME_A: Stream = Stream(2, b"a\x13", RUN_A);

/// Python's `zlib` made these.
pub(crate) const ZLIB_A: Stream = Stream(6, b"\x78\xda\x4b\x4c\xc4\x04\x00\x4f\xa6\x07\x95", RUN_A);

pub(crate) const ZLIB_B: Stream = Stream(
    6,
    b"\x78\xda\x4b\x4a\xc2\x04\x00\x50\x78\x07\xa9",
    b"bbbbbbbbbbbbbbbbbbbb",
);

pub(crate) const ZLIB_HELLO: Stream = Stream(
    6,
    b"\x78\xda\xcb\x48\xcd\xc9\xc9\xd7\x51\xc8\x40\xa2\xb8\x32\x88\x14\x03\x00\x7d\x3b\x14\x9b",
    b"hello, hello, hello\nhello, hello, hello\nhello, hello, hello\n",
);

/// Literals and a copy of them, as liblzo2 reads them.
pub(crate) const LZO_A: Stream = Stream(7, b"\x12a\x31\x00\x00\x11\x00\x00", RUN_A);

pub(crate) const LZO_ABC: Stream = Stream(
    7,
    b"\x14abc\x2D\x08\x00\x11\x00\x00",
    b"abcabcabcabcabcabc",
);

/// The stream of twenty `a` with a wrong checksum.
pub(crate) const BROKEN: Stream = Stream(6, b"\x78\xda\x4b\x4c\xc4\x04\x00\x4f\xa6\x07\x96", RUN_A);

/// No method has this number.
pub(crate) const UNREAD: Stream = Stream(5, b"a\x13", RUN_A);
