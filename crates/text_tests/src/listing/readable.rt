//! Listings that are read, and what their lines mean.

use crate::checks::expect_at;
use crate::listing::shown::{is_shown, show_op};
use byteorder::{BigEndian, LittleEndian};
use jlisting::{Line, ListingFault, listing};
use jnode::Order;
use jsteps::Op;
use std::alloc::{AllocError, Global};
use std::fmt::Write;
use std::test::Fail;

/// Whole listings, each with the lines that are read of it.
fn listings() -> &'static [(&'static [u8], &'static str)] {
    &[
        (
            b"create 0644 /a\nwrite /a 0 0102030405060708090a\ntruncate /a 4\nwrite /a 8 ff\n",
            "1: 0 create 644 0 0 /a\n\
             2: 0 write 0 /a \\x01\\x02\\x03\\x04\\x05\\x06\\x07\\x08\\x09\\x0a\n\
            3: 0 truncate 4 /a\n4: 0 write 8 /a \\xff\n",
        ),
        (
            b"mkdir 0755 /a\ntime 7\nowner 1 65535\ncreate 644 /a/b\nsymlink /l ../x\n\
            write /a/b 3 0aFf\npart /a/b 12 host\\x.bin\ntruncate /a/b 4294967295\nlink /a/b /c\n\
            owner 0 0\nrename /c /d\ntime 0\nremove /d",
            "1: 0 mkdir 755 0 0 /a\n4: 7 create 644 1 65535 /a/b\n\
            5: 7 symlink 1 65535 /l ../x\n6: 7 write 3 /a/b \\x0a\\xff\n\
            7: 7 part 12 /a/b host\\x.bin\n8: 7 truncate 4294967295 /a/b\n9: 7 link /a/b /c\n\
            11: 7 rename /c /d\n13: 0 remove /d\n",
        ),
        (
            b"time 5\nmkdir 1 /a\nowner 7 8\nmkdir 2 /b\ntime 6\nmkdir 3 /c\nowner 9 10\n\
              mkdir 4 /d",
            "2: 5 mkdir 1 0 0 /a\n4: 5 mkdir 2 7 8 /b\n6: 6 mkdir 3 7 8 /c\n8: 6 mkdir 4 9 10 /d\n",
        ),
        (b"time 1\ntime 2\nremove a", "3: 2 remove a\n"),
        (b"\n# a\nremove /a", "3: 0 remove /a\n"),
        (b"\n# a\nremove /a\n", "3: 0 remove /a\n"),
        (
            b"remove /a\n\n\n\nremove /b\n",
            "1: 0 remove /a\n5: 0 remove /b\n",
        ),
        (b"#\r\nremove /a\r\n", "2: 0 remove /a\\x0d\n"),
        (b"owner 1 2\ncreate 0 /a\n", "2: 0 create 0 1 2 /a\n"),
        (
            b"time 7\nowner 8 9\nattr 0700 5 6 1 2 /\nremove /a\n",
            "3: 7 attr 700 5 6 1 2 /\n4: 7 remove /a\n",
        ),
        (
            b"time 7\nreplace /\\x61 b\nreplace /b /\\x20\n",
            "2: 7 replace /a b\n3: 7 replace /b /\\x20\n",
        ),
        (
            b"time 7\nowner 1 65535\nfifo 0622 /\\x61\nsocket 777777 /b\n",
            "3: 7 fifo 622 1 65535 /a\n4: 7 socket 777777 1 65535 /b\n",
        ),
        (
            b"time 7\nowner 1 65535\ndevice c 0622 5 1 /\\x61\ndevice b 777777 8 16 /b\n",
            "3: 7 character 622 1 65535 /a 5 1\n4: 7 block 777777 1 65535 /b 8 16\n",
        ),
        (
            b"time 7\nowner 1 65535\nfile 0622 /\\x61\\x20 host\\x20a\\x5c\\xc3\xa4\nfile 0 /b -\n",
            "3: 7 file 622 1 65535 /a\\x20 host a\\\u{e4}\n4: 7 file 0 1 65535 /b -\n",
        ),
        (
            b"time 7\nowner 1 65535\nput 0622 /\\x61\\x20 host\\x20a\nremove-if /\\x62\nput 0 /c -\n",
            "3: 7 put 622 1 65535 /a\\x20 host a\n4: 7 remove-if /b\n5: 7 put 0 1 65535 /c -\n",
        ),
    ]
}

/// Listings of no action.
fn empty() -> &'static [&'static [u8]] {
    &[
        b"",
        b"\n",
        b"\n\n\n",
        b"#",
        b"#\n",
        b"# a  b \n#\x00\xff\\\r\n\n#mkdir",
        b"time 5\nowner 1 2\n",
        b"time 4294967295\nowner 65535 0",
    ]
}

/// Words, each in a line of its own, at the limits of what is read.
fn words() -> &'static [(&'static [u8], &'static str)] {
    &[
        (b"truncate /a 0000000000", "1: 0 truncate 0 /a\n"),
        (b"truncate /a 4294967295", "1: 0 truncate 4294967295 /a\n"),
        (b"truncate /a 0000000042", "1: 0 truncate 42 /a\n"),
        (
            b"owner 65535 0000000001\nmkdir 0 /a",
            "2: 0 mkdir 0 65535 1 /a\n",
        ),
        (b"time 4294967295\nremove /a", "2: 4294967295 remove /a\n"),
        (b"mkdir 7 /a", "1: 0 mkdir 7 0 0 /a\n"),
        (b"mkdir 777777 /a", "1: 0 mkdir 777777 0 0 /a\n"),
        (b"mkdir 000001 /a", "1: 0 mkdir 1 0 0 /a\n"),
        (b"create 107777 /a", "1: 0 create 107777 0 0 /a\n"),
        (b"write /a 0 -", "1: 0 write 0 /a \n"),
        (b"write /a 0 00", "1: 0 write 0 /a \\x00\n"),
        (b"write /a 9 61AbcDef", "1: 0 write 9 /a a\\xab\\xcd\\xef\n"),
        (b"remove /\\x61\\xaB\\xFf", "1: 0 remove /a\\xab\\xff\n"),
        (b"remove \\x2f\\x2f", "1: 0 remove //\n"),
        (b"remove \\x5cx41", "1: 0 remove \\x5cx41\n"),
        (b"remove \\x20\\x0a", "1: 0 remove \\x20\\x0a\n"),
        (b"remove #", "1: 0 remove #\n"),
        (b"remove \xff\x00\t", "1: 0 remove \\xff\\x00\\x09\n"),
        (b"symlink /a \\x00", "1: 0 symlink 0 0 /a \\x00\n"),
        (b"part /a 0 -", "1: 0 part 0 /a -\n"),
        (b"part /a 0 \\", "1: 0 part 0 /a \\\n"),
        (b"part /\\x61 0 a\tb", "1: 0 part 0 /a a\tb\n"),
        (b"part /a 0 \xc3\xa4", "1: 0 part 0 /a \u{e4}\n"),
        (b"file 644 /a \xc3\xa4", "1: 0 file 644 0 0 /a \u{e4}\n"),
        (b"file 644 /a \\xc3\\xA4", "1: 0 file 644 0 0 /a \u{e4}\n"),
        (b"file 644 /a a\tb", "1: 0 file 644 0 0 /a a\tb\n"),
        (b"file 644 /a \\x0a\\x00", "1: 0 file 644 0 0 /a \n\0\n"),
        (b"file 777777 /\\x61 file", "1: 0 file 777777 0 0 /a file\n"),
        (b"link a b", "1: 0 link a b\n"),
        (
            b"device c 0 4095 1048575 /a",
            "1: 0 character 0 0 0 /a 4095 1048575\n",
        ),
        (b"device b 7 0 0 /a", "1: 0 block 7 0 0 /a 0 0\n"),
        (
            b"device c 1 0000000001 0000000002 c",
            "1: 0 character 1 0 0 c 1 2\n",
        ),
        (
            b"device b 107777 256 257 /\\x20",
            "1: 0 block 107777 0 0 /\\x20 256 257\n",
        ),
        (b"attr 0 0 0 0 0 /a", "1: 0 attr 0 0 0 0 0 /a\n"),
        (
            b"attr 777777 65535 0000065534 4294967295 4294967294 /\x61",
            "1: 0 attr 777777 65535 65534 4294967295 4294967294 /a\n",
        ),
        (b"attr 10000 1 2 3 4 /a", "1: 0 attr 10000 1 2 3 4 /a\n"),
        (b"attr 600 1 2 3 4 attr", "1: 0 attr 600 1 2 3 4 attr\n"),
    ]
}

#[test]
fn listings_that_are_read(rt: HostRuntime) {
    for &(text, wanted) in listings() {
        expect_at(&rt, is_shown(rt.alloc(), text, wanted), wanted);
    }
    for &(text, wanted) in words() {
        expect_at(&rt, is_shown(rt.alloc(), text, wanted), wanted);
    }
    for &text in empty() {
        expect_at(&rt, is_shown(rt.alloc(), text, ""), text);
    }
}

/// The operation of a line in an image of an order.
fn op_of<'a, E: Order>(line: Line<'a>, bytes: &'a [u8]) -> Op<'a> {
    line.action.op::<E>(bytes)
}

/// The operation of the last line.
fn show_last<'a, E: Order>(
    out: &mut String,
    lines: &mut Vec<Line<'a>>,
    bytes: &'a [u8],
) -> Result<(), AllocError> {
    match lines.pop() {
        Some(line) => show_op(out, &op_of::<E>(line, bytes)),
        None => Ok(()),
    }
}

/// The name of the last line's file.
fn show_file(out: &mut String, lines: &[Line<'_>]) -> Result<(), AllocError> {
    match lines.last() {
        Some(line) => {
            let name = line.action.file().unwrap_or("-");
            write!(out, "{name}: ")
        }
        None => Ok(()),
    }
}

/// What a listing's last line becomes, with the name of its file in front.
fn joined<E: Order>(alloc: Global, text: &[u8], bytes: &[u8]) -> Result<String, ListingFault> {
    let mut out = String::new(alloc);
    let mut lines = listing(alloc, text)?;
    show_file(&mut out, &lines)?;
    show_last::<E>(&mut out, &mut lines, bytes)?;
    Ok(out)
}

fn is_joined<E: Order>(alloc: Global, text: &[u8], bytes: &[u8], wanted: &str) -> bool {
    match joined::<E>(alloc, text, bytes) {
        Ok(out) => out.as_str() == wanted,
        Err(_) => false,
    }
}

/// Listings whose last line has a file or a number of a device, with the operation in little and in
/// big order where the file has the bytes `xyz`.
fn files() -> &'static [(&'static [u8], &'static str, &'static str)] {
    &[
        (
            b"time 3\npart /a 4 f\n",
            "f: 3 write 4 /a xyz",
            "f: 3 write 4 /a xyz",
        ),
        (b"remove /a", "-: 0 remove /a", "-: 0 remove /a"),
        (
            b"time 3\nowner 5 6\nfile 600 /b \\x67",
            "g: 3 file 600 5 6 /b xyz",
            "g: 3 file 600 5 6 /b xyz",
        ),
        (
            b"time 3\nowner 5 6\nput 600 /b \\x67",
            "g: 3 put 600 5 6 /b xyz",
            "g: 3 put 600 5 6 /b xyz",
        ),
        (
            b"owner 5 6\ndevice b 640 259 65537 /c",
            "-: 0 block 640 5 6 /c \\x01\\x03\\x01\\x10",
            "-: 0 block 640 5 6 /c \\x10\\x01\\x03\\x01",
        ),
        (
            b"device c 620 4 1 /d",
            "-: 0 character 620 0 0 /d \\x01\\x04",
            "-: 0 character 620 0 0 /d \\x04\\x01",
        ),
    ]
}

/// The bytes of a line's file join it, also where they are younger than the listing.
#[test]
fn lines_with_files_become_operations(rt: HostRuntime) -> Result<(), Fail> {
    let bytes = b"xyz".to_vec(rt.alloc())?;
    for &(text, little, big) in files() {
        let is_little = is_joined::<LittleEndian>(rt.alloc(), text, &bytes, little);
        let is_big = is_joined::<BigEndian>(rt.alloc(), text, &bytes, big);
        expect_at(&rt, is_little && is_big, text);
    }
    Ok(())
}
