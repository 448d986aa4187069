//! Command lines with the size of a block in one of its forms, or a byte order by a letter.

use crate::checks::{equal_at, expect_at};
use crate::command::command_lines::{answer_to, is_text, is_wrong};
use std::test::Fail;

/// Lines, and what they ask for.
const ASKED: [(&str, &str); 19] = [
    ("t ls -e 128KiB a.img", "ls 131072 little a.img all"),
    ("t ls -e4K a.img", "ls 4096 little a.img all"),
    ("t ls --block 4M a.img", "ls 4194304 little a.img all"),
    ("t ls --block=1MiB a.img", "ls 1048576 little a.img all"),
    ("t ls --block=008K a.img", "ls 8192 little a.img all"),
    (
        "t ls --eraseblock 0x20000 a.img",
        "ls 131072 little a.img all",
    ),
    ("t ls --eraseblock=8192 a.img", "ls 8192 little a.img all"),
    (
        "t ls --block=0xfEdCbA98 a.img",
        "ls 4275878552 little a.img all",
    ),
    (
        "t ls --block=0x00000FFFFffff a.img",
        "ls 4294967295 little a.img all",
    ),
    ("t ls --block=0x0 a.img", "ls 0 little a.img all"),
    ("t ls --block=0M a.img", "ls 0 little a.img all"),
    (
        "t ls --block 4095MiB a.img",
        "ls 4293918720 little a.img all",
    ),
    (
        "t ls --block 4194303K a.img",
        "ls 4294966272 little a.img all",
    ),
    ("t ls -b a.img", "ls 65536 big a.img all"),
    ("t ls a.img -l", "ls 65536 little a.img all"),
    ("t ls --big-endian a.img", "ls 65536 big a.img all"),
    ("t ls a.img --little-endian /b", "ls 65536 little a.img /b"),
    ("t ls -be 8K a.img", "ls 8192 big a.img all"),
    (
        "t pack -b -e 64K a b.img",
        "pack 65536 big - 4096 - - - a b.img",
    ),
];

fn asked() -> &'static [(&'static str, &'static str)] {
    &ASKED
}

#[test]
fn args_with_sizes_and_letters(rt: HostRuntime) -> Result<(), Fail> {
    for &(line, wanted) in asked() {
        let answer = answer_to(rt.alloc(), line)?;
        equal_at(&rt, answer.as_str(), wanted, line);
    }
    Ok(())
}

/// Lines that ask for nothing, and a part of the text that says why.
const WRONG: [(&str, &str); 29] = [
    ("t ls --block=0x a", "'0x' for '--block <N>'"),
    ("t ls --block=0X1000 a", "'0X1000' for '--block <N>'"),
    ("t ls --block=x1000 a", "'x1000' for '--block <N>'"),
    ("t ls --block=00x1000 a", "'00x1000' for '--block <N>'"),
    ("t ls --block=0x10g0 a", "'0x10g0' for '--block <N>'"),
    ("t ls --block=0x1K a", "'0x1K' for '--block <N>'"),
    (
        "t ls --block=0x100000000 a",
        "'0x100000000' for '--block <N>'",
    ),
    ("t ls --block=4k a", "'4k' for '--block <N>'"),
    ("t ls --block=4KB a", "'4KB' for '--block <N>'"),
    ("t ls --block=4Ki a", "'4Ki' for '--block <N>'"),
    ("t ls --block=4KiBs a", "'4KiBs' for '--block <N>'"),
    ("t ls --block=4G a", "'4G' for '--block <N>'"),
    ("t ls --block=4iB a", "'4iB' for '--block <N>'"),
    ("t ls --block=K a", "'K' for '--block <N>'"),
    ("t ls --block=MiB a", "'MiB' for '--block <N>'"),
    ("t ls --block=4096MiB a", "'4096MiB' for '--block <N>'"),
    ("t ls --block=4194304K a", "'4194304K' for '--block <N>'"),
    ("t ls --block=4K4 a", "'4K4' for '--block <N>'"),
    ("t ls -e many a", "'many' for '--block <N>'"),
    ("t ls --eraseblock= a", "'' for '--block <N>'"),
    ("t ls -e 4K --block 4K a", "--block <N>"),
    ("t ls --eraseblock 4K -e 4K a", "--block <N>"),
    (
        "t ls -l -b a",
        "'--little-endian' cannot be used with '--big-endian'",
    ),
    (
        "t ls -l --endian little a",
        "'--endian <ORDER>' cannot be used with '--little-endian'",
    ),
    (
        "t ls --big-endian --endian=big a",
        "'--endian <ORDER>' cannot be used with '--big-endian'",
    ),
    (
        "t ls -b --endian=middle a",
        "'middle' for '--endian <ORDER>'",
    ),
    ("t ls -l --little-endian a", "--little-endian"),
    ("t info -e 4K a", "-e"),
    ("t listing -b a", "-b"),
];

fn wrong() -> &'static [(&'static str, &'static str)] {
    &WRONG
}

#[test]
fn args_with_sizes_and_letters_that_are_wrong(rt: HostRuntime) -> Result<(), Fail> {
    for &(line, part) in wrong() {
        let answer = answer_to(rt.alloc(), line)?;
        expect_at(&rt, is_wrong(answer.as_str(), part), line);
    }
    Ok(())
}

/// Lines that ask for help, and a part of it.
const HELP: [(&str, &str); 4] = [
    ("t ls -h", "-e, --block <N>"),
    ("t ls -h", "-l, --little-endian"),
    ("t ls -h", "-b, --big-endian"),
    ("t --help", "other names of --block"),
];

fn help() -> &'static [(&'static str, &'static str)] {
    &HELP
}

#[test]
fn help_on_sizes(rt: HostRuntime) -> Result<(), Fail> {
    for &(line, part) in help() {
        let answer = answer_to(rt.alloc(), line)?;
        expect_at(
            &rt,
            is_text(answer.as_str(), "help ", [part, "Exit status:"]),
            line,
        );
    }
    Ok(())
}
