//! Command lines of `cat` with an inode.

use crate::checks::{equal_at, expect_at};
use crate::command::command_lines::{answer_to, is_wrong, shown_options};
use jcommand::InodeContent;
use std::alloc::{AllocError, Global};
use std::test::Fail;

/// What is asked of an inode.
pub(crate) fn shown_inode(alloc: Global, asked: InodeContent<&str>) -> Result<String, AllocError> {
    let InodeContent {
        options,
        image,
        ino,
        version,
    } = asked;
    let command = shown_options(alloc, "inode", options)?;
    format!(in alloc; "{command} {image} {ino} {version}")
}

/// Words, and what they ask for.
fn rows() -> &'static [(&'static str, &'static str)] {
    &[
        ("t cat --ino 7 i", "inode 65536 little i 7 4294967295"),
        (
            "t cat i --upto=3 --ino=4294967295 -e 8K -b",
            "inode 8192 big i 4294967295 3",
        ),
        (
            "t cat --auto --ino 0 --upto 0 i",
            "auto inode 65536 little i 0 0",
        ),
    ]
}

#[test]
fn inodes_are_asked_for(rt: HostRuntime) -> Result<(), Fail> {
    for &(line, wanted) in rows() {
        let answer = answer_to(rt.alloc(), line)?;
        equal_at(&rt, answer.as_str(), wanted, line);
    }
    Ok(())
}

/// Words that are wrong, and a part of what is printed then.
fn wrong() -> &'static [(&'static str, &'static str)] {
    &[
        ("t cat i", "<PATH>"),
        ("t cat --upto 3 i", "--ino <I>"),
        (
            "t cat --ino 2 i /p",
            "the argument '--ino <I>' cannot be used with '<PATH>'",
        ),
        (
            "t cat --ino 2 --decompress i",
            "the argument '--ino <I>' cannot be used with '--decompress'",
        ),
        ("t cat --ino x i", "invalid value 'x' for '--ino <I>'"),
        (
            "t cat --ino 2 --upto 4294967296 i",
            "invalid value '4294967296' for '--upto <V>'",
        ),
        ("t ls --ino 2 i", "unexpected argument '--ino' found"),
    ]
}

#[test]
fn inodes_that_are_wrong(rt: HostRuntime) -> Result<(), Fail> {
    for &(line, part) in wrong() {
        let answer = answer_to(rt.alloc(), line)?;
        expect_at(&rt, is_wrong(answer.as_str(), part), line);
    }
    Ok(())
}
