//! Folders, and the texts that are known of them.

use crate::folder::memory::{Memory, Object, make_object};
use jfolder::{FolderTree, Options, Owner, ReadFault, put_listing, read_folder};
use jlisting::listing;
use std::alloc::Global;
use test_support::Taker;

/// What is taken as it is told.
pub const AS_TOLD: Options = Options {
    owner: None,
    time: None,
};

/// What takes the place of all owners and times.
pub const GIVEN: Options = Options {
    owner: Some(Owner { uid: 1, gid: 2 }),
    time: Some(3),
};

/// A regular file with two names.
fn shared(path: &'static str) -> Object {
    let mut object = make_object(path, 0o100644, (5, 6), 100, "abc");
    object.looked.links = 2;
    object.looked.number = 9;
    object
}

/// A device whose number the host tells like this.
pub fn device(path: &'static str, mode: u32, time: i64, special: u64) -> Object {
    let mut object = make_object(path, mode, (0, 0), time, "");
    object.looked.special = special;
    object
}

/// A folder with most of what there is.
pub fn tree() -> [Object; 12] {
    [
        make_object("", 0o040755, (0, 0), 100, ""),
        shared("b"),
        make_object("a", 0o040700, (0, 0), 100, ""),
        make_object("a/x", 0o104755, (0, 0), 100, ""),
        make_object("a/l", 0o120777, (0, 0), 7, "../b c/\\"),
        shared("a.c"),
        device("c", 0o020644, 0, 0x401),
        make_object("d", 0o010644, (5, 6), 0, ""),
        make_object("e f", 0o100600, (0, 0), 0, "\0~A"),
        make_object("f", 0o140755, (0, 0), 0, ""),
        make_object("g", 0o040755, (70000, 0), 0, ""),
        make_object("g/h", 0o040755, (0, 0), 0, ""),
    ]
}

pub const TREE_TEXT: &str =
    "time 100\nattr 755 0 0 100 100 /\nmkdir 700 /a\ntime 7\nsymlink /a/l ../b\\x20c/\\x5c\n\
     time 100\nfile 4755 /a/x host/a/x\nowner 5 6\nfile 644 /a.c host/a.c\nlink /a.c /b\ntime 0\n\
     owner 0 0\ndevice c 644 4 1 /c\nowner 5 6\nfifo 644 /d\nowner 0 0\n\
     file 600 /e\\x20f host/e\\x20f\nsocket 755 /f\n";

pub const TREE_NOTES: &str = "left out /g: an owner above 65535\n";

/// The same folder, with one owner and one time.
pub const GIVEN_TEXT: &str =
    "time 3\nattr 755 1 2 3 3 /\nowner 1 2\nmkdir 700 /a\nsymlink /a/l ../b\\x20c/\\x5c\n\
     file 4755 /a/x host/a/x\nfile 644 /a.c host/a.c\nlink /a.c /b\ndevice c 644 4 1 /c\n\
     fifo 644 /d\nfile 600 /e\\x20f host/e\\x20f\nsocket 755 /f\nmkdir 755 /g\nmkdir 755 /g/h\n";

/// Whether a folder is read as this listing, with these notes.
pub fn is_read(
    alloc: Global,
    objects: &[Object],
    options: &Options,
    text: &str,
    notes: &str,
    left_out: u64,
) -> bool {
    let mut told = Taker::new(alloc);
    let Ok(folder) = read_folder(alloc, &mut Memory::new(alloc, objects), options, &mut told) else {
        return false;
    };
    told.took(0, notes.as_bytes())
        && folder.left_out == left_out
        && is_text_of(alloc, &folder, text.as_bytes())
}

/// Whether a folder has this listing, which can be read.
pub fn is_text_of(alloc: Global, folder: &FolderTree, text: &[u8]) -> bool {
    let mut sink = Taker::new(alloc);
    let put = put_listing(&folder.root, folder.items.as_slice(), &mut sink);
    put.is_ok() && sink.took(0, text) && listing(alloc, text).is_ok()
}

/// Why a folder is not read, where the notes took just this reason.
pub fn fault_of(
    alloc: Global,
    objects: &[Object],
    options: &Options,
    why: &str,
) -> Option<ReadFault> {
    let mut told = Taker::new(alloc);
    let answer = read_folder(alloc, &mut Memory::new(alloc, objects), options, &mut told);
    let line = format!(in alloc; "not listed: {why}\n").ok()?;
    match answer {
        Err(fault) if told.took(0, line.as_bytes()) => Some(fault),
        _ => None,
    }
}
