//! Folders as listings.

use crate::checks::{equal, expect};
use crate::folder::folders::{
    AS_TOLD, GIVEN, GIVEN_TEXT, TREE_NOTES, TREE_TEXT, device, fault_of, is_read, tree,
};
use crate::folder::memory::{Memory, Object, UNREADABLE, make_object};
use jfolder::{ReadFault, Reason, put_listing, read_folder};
use jlisting::listing;
use std::test::Fail;
use test_support::Taker;

#[test]
fn a_folder_is_listed(rt: HostRuntime) {
    let alloc = rt.alloc();
    expect(
        &rt,
        is_read(alloc, &tree(), &AS_TOLD, TREE_TEXT, TREE_NOTES, 1),
    );
    expect(&rt, is_read(alloc, &tree(), &GIVEN, GIVEN_TEXT, "", 0));
}

/// An object of this kind beside the folder itself.
fn with_other(kind: u32, time: i64, size: u64, text: &'static str) -> [Object; 2] {
    let mut other = make_object("o", kind, (0, 0), time, text);
    other.looked.size = size;
    [make_object("", 0o040755, (0, 0), 0, ""), other]
}

const ROOT_TEXT: &str = "attr 755 0 0 0 0 /\n";

#[test]
fn kinds_that_no_listing_has_are_left_out(rt: HostRuntime) {
    let objects = with_other(0o150000, 0, 0, "");
    let notes = "left out /o: a kind that is not known\n";
    expect(
        &rt,
        is_read(rt.alloc(), &objects, &AS_TOLD, ROOT_TEXT, notes, 1),
    );
}

/// Devices, by the number that glibc has of their major and minor ones, and what is said of them.
const DEVICES: [(u32, u64, &str, &str); 8] = [
    (0o020600, 0x103, "device c 600 1 3 /o\n", ""),
    (0o060640, 0x800, "device b 640 8 0 /o\n", ""),
    (0o060000, 0x10010301, "device b 0 259 65537 /o\n", ""),
    (0o020000, 0xfff_00, "device c 0 4095 0 /o\n", ""),
    (0o020000, 0xff_ff_ff_ff, "device c 0 4095 1048575 /o\n", ""),
    (
        0o020000,
        0x1000_0000_0000,
        "",
        "left out /o: character device\n",
    ),
    (0o060000, 0x1_0000_0000, "", "left out /o: block device\n"),
    (
        0o060000,
        0xffff_ffff_ffff_ffff,
        "",
        "left out /o: block device\n",
    ),
];

#[test]
fn devices_are_listed_with_their_numbers(rt: HostRuntime) -> Result<(), Fail> {
    for (mode, special, line, notes) in DEVICES {
        let objects = [
            make_object("", 0o040755, (0, 0), 0, ""),
            device("o", mode, 0, special),
        ];
        let text = format!(in rt.alloc(); "{ROOT_TEXT}{line}")?;
        let left_out = if notes.is_empty() { 0 } else { 1 };
        expect(
            &rt,
            is_read(
                rt.alloc(),
                &objects,
                &AS_TOLD,
                text.as_str(),
                notes,
                left_out,
            ),
        );
    }
    Ok(())
}

const NO_TARGET: &str =
    "left out /o: a target of no bytes, of more than 4095, or with a zero byte\n";

#[test]
fn targets_that_are_none_are_left_out(rt: HostRuntime) {
    let rows = [
        (0, "", NO_TARGET),
        (1, "a\0", NO_TARGET),
        (1, "?", "left out /o: no text\n"),
    ];
    for (size, text, notes) in rows {
        let objects = with_other(0o120000, 0, size, text);
        expect(
            &rt,
            is_read(rt.alloc(), &objects, &AS_TOLD, ROOT_TEXT, notes, 1),
        );
    }
}

const NO_TIME: &str = "left out /o: a time before 1970 or after 2106\n";

/// A time, a size and the content of a file; the listing, and the notes.
fn bounds() -> &'static [(i64, u64, &'static str, &'static str, &'static str)] {
    &[
        (
            0,
            268435456,
            "abc",
            "attr 755 0 0 0 0 /\nfile 0 /o host/o\n",
            "",
        ),
        (
            0,
            268435457,
            "",
            ROOT_TEXT,
            "left out /o: more than 268435456 bytes\n",
        ),
        (
            4294967295,
            0,
            "",
            "attr 755 0 0 0 0 /\ntime 4294967295\nfile 0 /o host/o\n",
            "",
        ),
        (4294967296, 0, "", ROOT_TEXT, NO_TIME),
        (-1, 0, "", ROOT_TEXT, NO_TIME),
    ]
}

/// Files at a time and of a size, the listing, and the notes.
#[test]
fn times_and_sizes_have_an_end(rt: HostRuntime) {
    for &(time, size, content, text, notes) in bounds() {
        let objects = with_other(0o100000, time, size, content);
        let left_out = u64::from(!notes.is_empty());
        expect(
            &rt,
            is_read(rt.alloc(), &objects, &AS_TOLD, text, notes, left_out),
        );
    }
}

#[test]
fn names_that_are_none_are_left_out(rt: HostRuntime) {
    let alloc = rt.alloc();
    let mut root = make_object("", 0o040755, (0, 0), 0, "");
    root.others = 3;
    let mut directory = make_object("d", 0o040755, (0, 0), 0, "");
    directory.others = 1;
    let objects = [
        root,
        make_object("..", 0o040755, (0, 0), 0, ""),
        make_object("a\0", 0o100644, (0, 0), 0, ""),
        make_object("b", 0o100644, (0, 0), 0, ""),
        make_object("b", 0o100644, (0, 0), 0, ""),
        directory,
    ];
    let notes = "left out /: names that are no text: 3\nleft out /..: a name that no file has\n\
         left out /a\\x00: a name that no file has\nleft out /b: a name that was told before\n\
         left out /d/: names that are no text: 1\n";
    let text = "attr 755 0 0 0 0 /\nfile 644 /b host/b\nmkdir 755 /d\n";
    expect(&rt, is_read(alloc, &objects, &AS_TOLD, text, notes, 5));
}

/// A path, a size and the content of a file; the listing, and the notes.
fn unlisted() -> &'static [(&'static str, u64, &'static str, &'static str, &'static str)] {
    &[
        (
            "o",
            1,
            UNREADABLE,
            ROOT_TEXT,
            "left out /o: the host refused it\n",
        ),
        (
            "o",
            0,
            UNREADABLE,
            ROOT_TEXT,
            "left out /o: the host refused it\n",
        ),
        (
            "o o\n\\\u{e9}",
            268435456,
            "o",
            "attr 755 0 0 0 0 /\n\
             file 644 /o\\x20o\\x0a\\x5c\\xc3\\xa9 host/o\\x20o\\x0a\\x5c\\xc3\\xa9\n",
            "",
        ),
        (
            "o o",
            268435457,
            "o",
            ROOT_TEXT,
            "left out /o\\x20o: more than 268435456 bytes\n",
        ),
    ]
}

/// A file that can't be read has no line, whatever its size; one of any name has one, which may be
/// of any characters.
#[test]
fn files_that_are_not_listed(rt: HostRuntime) {
    for &(path, size, text_in, text, notes) in unlisted() {
        let mut other = make_object(path, 0o100644, (0, 0), 0, text_in);
        other.looked.size = size;
        let objects = [make_object("", 0o040755, (0, 0), 0, ""), other];
        let left_out = u64::from(!notes.is_empty());
        expect(
            &rt,
            is_read(rt.alloc(), &objects, &AS_TOLD, text, notes, left_out),
        );
    }
}

/// An owner and a kind that no listing has: the kind is told.
#[test]
fn a_kind_goes_before_an_owner(rt: HostRuntime) {
    let mut objects = with_other(0o150000, -1, 0, "");
    objects[1].looked.uid = 65536;
    let notes = "left out /o: a kind that is not known\n";
    expect(
        &rt,
        is_read(rt.alloc(), &objects, &AS_TOLD, ROOT_TEXT, notes, 1),
    );
}

#[test]
fn the_folder_itself_is_a_directory(rt: HostRuntime) {
    let alloc = rt.alloc();
    let rows = [
        (
            make_object("", 0o100644, (0, 0), 0, ""),
            Reason::NotDirectory,
        ),
        (make_object("", 0o120777, (0, 0), 0, ""), Reason::Symlink),
        (make_object("x", 0o040755, (0, 0), 0, ""), Reason::Refused),
        (make_object("", 0o040755, (0, 65536), 0, ""), Reason::Owner),
        (make_object("", 0o040755, (0, 0), -1, ""), Reason::Time),
    ];
    for (root, reason) in rows.iter() {
        equal(
            &rt,
            fault_of(alloc, &[*root], &AS_TOLD, reason.text()),
            Some(ReadFault::Folder(*reason)),
        );
    }
}

/// How many lines a text has.
fn lines_in(text: &[u8]) -> u64 {
    let mut count = 0u64;
    for byte in text {
        if *byte == b'\n' {
            count = count.wrapping_add(1);
        }
    }
    count
}

/// What is refused is left out, and the rest is a listing still.
#[test]
fn a_host_that_refuses_a_call(rt: HostRuntime) {
    let alloc = rt.alloc();
    let objects = tree();
    for calls in 0..26 {
        let mut folder = Memory::new(alloc, &objects);
        folder.calls = calls;
        let mut notes = Taker::new(alloc);
        match read_folder(alloc, &mut folder, &AS_TOLD, &mut notes) {
            Ok(read) => {
                expect(&rt, calls >= 2);
                equal(&rt, read.left_out, lines_in(notes.bytes.as_slice()));
                let mut sink = Taker::new(alloc);
                expect(
                    &rt,
                    put_listing(&read.root, read.items.as_slice(), &mut sink).is_ok(),
                );
                expect(&rt, listing(alloc, sink.bytes.as_slice()).is_ok());
            }
            Err(fault) => {
                expect(&rt, calls < 2);
                equal(&rt, fault, ReadFault::Folder(Reason::Refused));
            }
        }
    }
}

/// The notes fail once, by an Err or by taking nothing, and nothing more is told.
#[test]
fn notes_that_fail(rt: HostRuntime) {
    let alloc = rt.alloc();
    let objects = tree();
    for limit in 0..TREE_NOTES.len() {
        for is_silent in [false, true] {
            let mut notes = Taker::failing(alloc, 1, limit, is_silent);
            match read_folder(
                alloc,
                &mut Memory::new(alloc, &objects),
                &AS_TOLD,
                &mut notes,
            ) {
                Ok(_) => expect(&rt, false),
                Err(fault) => equal(&rt, fault, ReadFault::Notes),
            }
            expect(&rt, notes.took(1, &TREE_NOTES.as_bytes()[..limit]));
        }
    }
}

/// The sink fails once, by an Err or by taking nothing, and nothing more goes out.
#[test]
fn a_sink_that_fails(rt: HostRuntime) {
    let alloc = rt.alloc();
    let objects = tree();
    let mut notes = Taker::new(alloc);
    let Ok(read) = read_folder(
        alloc,
        &mut Memory::new(alloc, &objects),
        &AS_TOLD,
        &mut notes,
    ) else {
        return expect(&rt, false);
    };
    for limit in 0..TREE_TEXT.len() {
        for is_silent in [false, true] {
            let mut sink = Taker::failing(alloc, 1, limit, is_silent);
            expect(
                &rt,
                put_listing(&read.root, read.items.as_slice(), &mut sink).is_err(),
            );
            expect(&rt, sink.took(1, &TREE_TEXT.as_bytes()[..limit]));
        }
    }
}
