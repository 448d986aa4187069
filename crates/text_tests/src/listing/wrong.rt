//! Lines that mean nothing, with their numbers.

use crate::checks::equal_at;
use jlisting::{ListingFault, listing};
use std::alloc::Global;
use std::process::Abort;

/// The number of the line for which a listing is not read.
fn wrong_line(alloc: Global, text: &[u8]) -> Option<usize> {
    match listing(alloc, text) {
        Err(ListingFault::Line(bad)) => Some(bad.line),
        _ => None,
    }
}

/// Lines are counted from 1, empty ones and comments with the others; the first that means nothing
/// is answered.
fn numbers() -> &'static [(&'static [u8], usize)] {
    &[
        (b"# a\n\ncreate  0644 /a\n", 3),
        (b"# a\n\ncreate  0644 /a", 3),
        (b"x", 1),
        (b"\n\n\nx\ny\n", 4),
        (b"remove /a\nremove /b\n \n", 3),
        (b"remove /a\n # a\n", 2),
        (b"\r\n", 1),
        (b"# a\r\n\r\n", 2),
        (b"remove /a\n\x00", 2),
        (b"mkdir 755 /a\ntime 9\ntime 9\r\nremove /a\n", 3),
        (b"owner 1 1\nowner 65536 1\n", 2),
        (b"create 0644 /a\rwrite /a 0 -", 1),
        (b"remove /a\n\n\n\n\n\n\n\n\n\n\nremove", 12),
        (b"\xef\xbb\xbfremove /a\n", 1),
    ]
}

/// Lines that mean nothing, each a listing of its own: sizes, times and owners.
fn wrong_numbers() -> &'static [&'static [u8]] {
    &[
        b"truncate /a 00000000000",
        b"truncate /a 4294967296",
        b"truncate /a 9999999999",
        b"truncate /a 42949672950",
        b"truncate /a ",
        b"truncate /a +1",
        b"truncate /a -1",
        b"truncate /a 0x1",
        b"truncate /a 1\r",
        b"truncate /a 1 ",
        b"truncate  /a 1",
        b"truncate /a",
        b"truncate /a 1 2",
        b"truncate",
        b"time",
        b"time ",
        b"time 1 2",
        b"time 4294967296",
        b"time a",
        b"time 1\t",
        b"time\t1",
        b"Time 1",
        b"owner 1",
        b"owner 1 2 3",
        b"owner 65536 0",
        b"owner 0 65536",
        b"owner 0 ",
        b"owner  0",
        b"truncate /a \xff",
        b"time 00000000000",
        b"time 9999999999",
        b"owner 00000000001 0",
        b"owner -1 0",
    ]
}

/// Bytes of files, and new directories and files.
fn wrong_changes() -> &'static [&'static [u8]] {
    &[
        b"mkdir /a",
        b"mkdir 8 /a",
        b"mkdir 0000755 /a",
        b"mkdir 1000000 /a",
        b"mkdir  /a",
        b"mkdir 755 ",
        b"mkdir 755 /a b",
        b"create 0644",
        b"create 9 /a",
        b"write /a 0",
        b"write /a 0 ",
        b"write /a 0 a",
        b"write /a 0 abc",
        b"write /a 0 0g",
        b"write /a 0 g0",
        b"write /a 0 --",
        b"write /a 0 -0",
        b"write /a x 00",
        b"write /a 0 00 00",
        b"write /a 0 00 00 00 00",
        b"write \\x 0 00",
        b"part /a 0",
        b"part /a 0 ",
        b"part /a 0 \xff",
        b"part /a 0 a\xc3",
        b"part /a 0 a b",
        b"part /\\ 0 a",
        b"mkdir 0o7 /a",
        b"mkdir -1 /a",
        b"mkdir 75 8 /a",
        b"write /a 4294967296 -",
        b"part /a 4294967296 f",
        b"part /a -1 f",
        b"write /a 0 \\x00",
        b"create 0644 ",
        b"mkdir\x20\x20755 /a",
    ]
}

/// Names, and symlinks.
fn wrong_names() -> &'static [&'static [u8]] {
    &[
        b"remove",
        b"remove ",
        b"remove /a /b",
        b"remove \\",
        b"remove \\x",
        b"remove \\x6",
        b"remove \\xg0",
        b"remove \\x0g",
        b"remove \\X61",
        b"remove \\\\",
        b"remove /a\\n",
        b"remove \\x61\\",
        b"link /a",
        b"link /a ",
        b"link  /a",
        b"rename /a /b /c",
        b"replace",
        b"replace /a",
        b"replace /a ",
        b"replace  /a",
        b"replace /a /b /c",
        b"replace /a /\\",
        b"Replace /a /b",
        b"symlink /a",
        b"symlink /a \\q",
        b"REMOVE /a",
        b"symlink /a ",
        b"symlink  /a",
        b"rename /a ",
        b"remove /a ",
    ]
}

/// Files with bytes, FIFOs and sockets.
fn wrong_files() -> &'static [&'static [u8]] {
    &[
        b"file",
        b"file 644 /a",
        b"file 644 /a ",
        b"file 644  f",
        b"file 8 /a f",
        b"file 0000644 /a f",
        b"file /a 644 f",
        b"file 644 /a a b",
        b"file 644 /a \xff",
        b"file 644 /a \\xff",
        b"file 644 /a \\",
        b"file 644 /a a\\X61",
        b"put",
        b"put 644 /a",
        b"put 8 /a f",
        b"put 644 /a a b",
        b"put 644 /a \xff",
        b"remove-if",
        b"remove-if /a /b",
        b"remove-if /\\",
        b"removeif /a",
        b"fifo",
        b"fifo 644",
        b"fifo /a",
        b"fifo 8 /a",
        b"fifo 644 /a b",
        b"socket",
        b"socket 0000644 /a",
        b"socket 644 ",
        b"socket  /a",
    ]
}

/// Devices.
fn wrong_devices() -> &'static [&'static [u8]] {
    &[
        b"device",
        b"device c 600 5 1",
        b"device c 600 5 1 ",
        b"device c 600 5 /a",
        b"device c 5 1 /a",
        b"device 600 5 1 /a",
        b"device c 600 4096 1 /a",
        b"device c 600 5 1048576 /a",
        b"device b 600 65536 0 /a",
        b"device b 600 0 4294967296 /a",
        b"device p 600 5 1 /a",
        b"device C 600 5 1 /a",
        b"device cc 600 5 1 /a",
        b"device  600 5 1 /a",
        b"device c 8 5 1 /a",
        b"device c 600 5 1 /a b",
        b"device c 600 -1 1 /a",
    ]
}

/// Attributes.
fn wrong_attributes() -> &'static [&'static [u8]] {
    &[
        b"attr",
        b"attr 644",
        b"attr 644 /a",
        b"attr 644 0 0 /a",
        b"attr 644 0 0 0 /a",
        b"attr 644 0 0 0 0",
        b"attr 644 0 0 0 0 ",
        b"attr 644 0 0 0 0 /a ",
        b"attr 644 0 0 0 0 /a /b",
        b"attr 644 0 0 0 0 0 /a",
        b"attr 644 0 0 0 0 /a 0 0",
        b"attr 644 0 0  0 /a",
        b"attr 8 0 0 0 0 /a",
        b"attr 0000644 0 0 0 0 /a",
        b"attr 644 65536 0 0 0 /a",
        b"attr 644 0 65536 0 0 /a",
        b"attr 644 0 0 4294967296 0 /a",
        b"attr 644 0 0 0 4294967296 /a",
        b"attr 644 0 0 0 0 \\",
    ]
}

/// Other first words.
fn wrong_words() -> &'static [&'static [u8]] {
    &[
        b" truncate /a 1",
        b"replaces /a /b",
        b"files 644 /a f",
        b"sock 644 /a",
        b"devices c 600 5 1 /a",
        b"removes /a",
        b"remov /a",
        b"copy /a /b",
        b"\x00",
        b" ",
        b" #",
        b"\t",
    ]
}

/// Each text is not read for its first line.
fn are_wrong(rt: &impl Abort, alloc: Global, texts: &[&[u8]]) {
    for &text in texts {
        equal_at(rt, wrong_line(alloc, text), Some(1), text);
    }
}

#[test]
fn lines_that_mean_nothing(rt: HostRuntime) {
    let alloc = rt.alloc();
    for &(text, number) in numbers() {
        equal_at(&rt, wrong_line(alloc, text), Some(number), text);
    }
    are_wrong(&rt, alloc, wrong_numbers());
    are_wrong(&rt, alloc, wrong_changes());
    are_wrong(&rt, alloc, wrong_names());
    are_wrong(&rt, alloc, wrong_files());
    are_wrong(&rt, alloc, wrong_devices());
    are_wrong(&rt, alloc, wrong_attributes());
    are_wrong(&rt, alloc, wrong_words());
}
