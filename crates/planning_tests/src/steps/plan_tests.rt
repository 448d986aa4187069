//! Tables of operations, each with its steps or its refusal.

use crate::checks::equal_at;
use crate::steps::lines::answer;
use crate::steps::trees::{
    almost_spent, dangling, index_of, kinds, looped, one_number_left, small, spent,
};
use std::alloc::Global;
use std::process::Abort;
use std::test::Fail;
use test_support::Tree;

/// Each line's operation has this answer in a tree.
fn agree(rt: &impl Abort, alloc: Global, tree: Tree, rows: &[(&str, &str)]) -> Result<(), Fail> {
    let index = index_of(alloc, tree)?;
    for (line, wanted) in rows {
        let found = answer(alloc, &index, line)?;
        equal_at(rt, found.as_str(), *wanted, line);
    }
    Ok(())
}

fn bytes() -> &'static [(&'static str, &'static str)] {
    &[
        (
            "write /a 4000 200",
            "zero 2 3990, put 2 4000 96, put 2 4096 104",
        ),
        ("write /a 0 4096", "put 2 0 4096"),
        ("write /a 1 4096", "put 2 1 4095, put 2 4096 1"),
        (
            "write /a 0 12288",
            "put 2 0 4096, put 2 4096 4096, put 2 8192 4096",
        ),
        ("write /a 4 3", "put 2 4 3"),
        ("write /a 9 2", "put 2 9 2"),
        ("write /a 10 1", "put 2 10 1"),
        ("write /a 11 1", "zero 2 1, put 2 11 1"),
        ("write /d/f 1 1", "zero 5 1, put 5 1 1"),
        (
            "write /a 2147483646 1",
            "zero 2 2147483636, put 2 2147483646 1",
        ),
        ("write /a 2147483647 1", "O9 TooLarge"),
        ("write /a 4294967295 1", "O9 TooLarge"),
        ("write / 2147483646 1", "O1 BadPath"),
        ("write /a 100 0", ""),
        ("write /a 4294967295 0", ""),
        ("truncate /a 10", ""),
        ("truncate /a 9", "cut 2 9"),
        ("truncate /a 0", "cut 2 0"),
        ("truncate /a 11", "zero 2 1"),
        ("truncate /a 2147483647", "zero 2 2147483637"),
        ("truncate /a 2147483648", "O9 TooLarge"),
        ("truncate /a 4294967295", "O9 TooLarge"),
        ("truncate /d/f 0", ""),
    ]
}

fn names() -> &'static [(&'static str, &'static str)] {
    &[
        ("mkdir /x 755", "make 40755 5 6 [], set 1 x 58"),
        ("mkdir /d/e/x 0", "make 40000 5 6 [], set 4 x 58"),
        ("create /d/x 7777", "make 107777 5 6 [], set 3 x 58"),
        ("fifo /d/p 644", "make 10644 5 6 [], set 3 p 58"),
        ("socket /n/s 7777", "make 147777 5 6 [], set 10 s 58"),
        ("fifo /x 0", "make 10000 5 6 [], set 1 x 58"),
        ("char /x 600 98:97", "make 20600 5 6 [ab], set 1 x 58"),
        ("block /d/x 7777 98:97", "make 67777 5 6 [ab], set 3 x 58"),
        (
            "char /n/x 0 866:411233",
            "make 20000 5 6 [abcd], set 10 x 58",
        ),
        (
            "block /x 640 866:411233",
            "make 60640 5 6 [abcd], set 1 x 58",
        ),
        ("symlink /n/l ../f", "make 120777 5 6 [../f], set 10 l 58"),
        ("link /a /d/b", "set 3 b 2"),
        ("link /s /l", "set 1 l 7"),
        ("link /c /d/e/c", "set 4 c 8"),
        ("remove /a", "clear 1 a"),
        ("remove /n", "clear 1 n"),
        ("remove /q", "clear 1 q"),
        ("remove /h/x", "clear 9 x"),
        ("remove /d/e/g/i", "clear 6 i"),
        ("rename /a /b", "set 1 b 2, clear 1 a"),
        ("rename /d /n/d", "set 10 d 3, clear 1 d"),
        ("rename /d/e /e", "set 1 e 4, clear 3 e"),
        ("rename /d/e /d/x", "set 3 x 4, clear 3 e"),
        ("rename /d/f /d/e/g/i/f", "set 11 f 5, clear 3 f"),
        ("rename /s /t", "set 1 t 7, clear 1 s"),
    ]
}

/// Paths that lead nowhere.
fn nowhere() -> &'static [(&'static str, &'static str)] {
    &[
        ("mkdir x 755", "O1 BadPath"),
        ("create  644", "O1 BadPath"),
        ("remove /a/", "O1 BadPath"),
        ("write //a 0 1", "O1 BadPath"),
        ("truncate /./a 0", "O1 BadPath"),
        ("rename /d/../a /x", "O1 BadPath"),
        ("link /a /..", "O1 BadPath"),
        ("create /x\0 644", "O1 BadPath"),
        ("create /none/x 644", "O3 NotFound"),
        ("mkdir /q/x 755", "O3 NotFound"),
        ("write /none 0 1", "O3 NotFound"),
        ("write /none 0 0", "O3 NotFound"),
        ("truncate /none 0", "O3 NotFound"),
        ("link /none /x", "O3 NotFound"),
        ("remove /none", "O3 NotFound"),
        ("rename /none /x", "O3 NotFound"),
        ("create /a/b 644", "O4 NotDirectory"),
        ("create /a/b/c 644", "O4 NotDirectory"),
        ("remove /s/x", "O4 NotDirectory"),
        ("rename /c/x /y", "O4 NotDirectory"),
        ("rename /a /s/y", "O4 NotDirectory"),
        ("rename / /x", "O1 BadPath"),
        ("remove /", "O1 BadPath"),
    ]
}

/// What is there forbids it, or what is asked for.
fn forbidden() -> &'static [(&'static str, &'static str)] {
    &[
        ("mkdir /d 755", "O5 Exists"),
        ("create /a 644", "O5 Exists"),
        ("symlink /s t", "O5 Exists"),
        ("link /a /d/f", "O5 Exists"),
        ("rename /a /a", "O5 Exists"),
        ("rename /a /d/e", "O5 Exists"),
        ("write /d 0 1", "O6 WrongKind"),
        ("write /s 0 0", "O6 WrongKind"),
        ("truncate /s 0", "O6 WrongKind"),
        ("truncate /c 0", "O6 WrongKind"),
        ("link /d /x", "O6 WrongKind"),
        ("remove /d", "O7 NotEmpty"),
        ("remove /h", "O7 NotEmpty"),
        ("rename /d /d/x", "O8 IntoItself"),
        ("rename /d /d/e/x", "O8 IntoItself"),
        ("rename /d /d/e/g/i/x", "O8 IntoItself"),
        ("rename /d/e /d/e/g/x", "O8 IntoItself"),
        ("truncate /d/f 2147483648", "O9 TooLarge"),
        ("mkdir /x 10000", "O10 BadMode"),
        ("create /x 100644", "O10 BadMode"),
        ("symlink /x ", "O11 BadTarget"),
        ("symlink /x a\0b", "O11 BadTarget"),
    ]
}

/// The same of FIFOs, sockets and devices.
fn special() -> &'static [(&'static str, &'static str)] {
    &[
        ("fifo / 644", "O1 BadPath"),
        ("socket x 644", "O1 BadPath"),
        ("fifo /none/x 644", "O3 NotFound"),
        ("socket /a/x 644", "O4 NotDirectory"),
        ("fifo /q 10000", "O5 Exists"),
        ("socket /d 644", "O5 Exists"),
        ("fifo /x 10644", "O10 BadMode"),
        ("socket /x 10000", "O10 BadMode"),
        ("char / 600 1:3", "O1 BadPath"),
        ("block /none/x 600 8:0", "O3 NotFound"),
        ("char /a/x 600 1:3", "O4 NotDirectory"),
        ("block /q 600 8:0", "O5 Exists"),
        ("char /x 20600 1:3", "O10 BadMode"),
        ("block /x 10000 8:0", "O10 BadMode"),
    ]
}

fn root() -> &'static [(&'static str, &'static str)] {
    &[
        ("mkdir / 755", "O1 BadPath"),
        ("create / 644", "O1 BadPath"),
        ("symlink / t", "O1 BadPath"),
        ("write / 0 1", "O1 BadPath"),
        ("truncate / 0", "O1 BadPath"),
        ("link / /x", "O1 BadPath"),
        ("link /a /", "O1 BadPath"),
        ("rename /a /", "O1 BadPath"),
    ]
}

/// Two refusals apply, of which the first is told: paths.
fn pairs() -> &'static [(&'static str, &'static str)] {
    &[
        ("rename x /none/y", "O1 BadPath"),
        ("rename /none/y x", "O1 BadPath"),
        ("link / /a/b", "O1 BadPath"),
        ("link /a/b /", "O1 BadPath"),
        ("rename x /a", "O1 BadPath"),
        ("link /d x", "O1 BadPath"),
        ("truncate x 2147483648", "O1 BadPath"),
        ("mkdir x 10000", "O1 BadPath"),
        ("symlink x ", "O1 BadPath"),
        ("rename /none/x /a/b", "O3 NotFound"),
        ("rename /a/b /none/x", "O3 NotFound"),
        ("link /none/x /a/b", "O3 NotFound"),
        ("link /a/b /none/x", "O3 NotFound"),
        ("link /none /a/b", "O3 NotFound"),
        ("rename /none /a", "O3 NotFound"),
        ("link /q /a", "O3 NotFound"),
        ("link /d /none/x", "O3 NotFound"),
        ("rename /d /d/none/x", "O3 NotFound"),
        ("truncate /none 2147483648", "O3 NotFound"),
        ("write /q 2147483647 1", "O3 NotFound"),
        ("mkdir /none/x 10000", "O3 NotFound"),
        ("symlink /none/x ", "O3 NotFound"),
    ]
}

/// The same of what paths lead to.
fn later_pairs() -> &'static [(&'static str, &'static str)] {
    &[
        ("rename /a/b /d", "O4 NotDirectory"),
        ("link /d /a/x", "O4 NotDirectory"),
        ("rename /d /d/f/x", "O4 NotDirectory"),
        ("truncate /a/b 2147483648", "O4 NotDirectory"),
        ("write /a/b 2147483647 1", "O4 NotDirectory"),
        ("create /a/b 10000", "O4 NotDirectory"),
        ("symlink /a/b ", "O4 NotDirectory"),
        ("link /d /a", "O5 Exists"),
        ("rename /d /d/f", "O5 Exists"),
        ("rename /d /d", "O5 Exists"),
        ("mkdir /a 10000", "O5 Exists"),
        ("create /q 10000", "O5 Exists"),
        ("symlink /a ", "O5 Exists"),
        ("truncate /d 2147483648", "O6 WrongKind"),
        ("write /s 2147483647 1", "O6 WrongKind"),
    ]
}

fn missing() -> &'static [(&'static str, &'static str)] {
    &[
        ("mkdir /q 755", "O5 Exists"),
        ("create /q 644", "O5 Exists"),
        ("symlink /q t", "O5 Exists"),
        ("write /q 0 1", "O3 NotFound"),
        ("truncate /q 0", "O3 NotFound"),
        ("link /q /x", "O3 NotFound"),
        ("link /a /q", "O5 Exists"),
        ("remove /q", "clear 1 q"),
        ("rename /q /x", "O3 NotFound"),
        ("rename /a /q", "O5 Exists"),
        ("create /q/x 644", "O3 NotFound"),
        ("symlink /q/x t", "O3 NotFound"),
        ("write /q/x 0 1", "O3 NotFound"),
        ("truncate /q/x 0", "O3 NotFound"),
        ("link /q/x /y", "O3 NotFound"),
        ("link /a /q/x", "O3 NotFound"),
        ("remove /q/x", "O3 NotFound"),
        ("rename /q/x /y", "O3 NotFound"),
        ("rename /a /q/x", "O3 NotFound"),
        ("rename /h/x /y", "O3 NotFound"),
    ]
}

/// Files with bytes: a first piece, those of further pages, and the name.
fn files() -> &'static [(&'static str, &'static str)] {
    &[
        ("file /x 644 0", "make 100644 5 6 [], set 1 x 58"),
        ("file /d/x 7777 3", "make 107777 5 6 [ZZZ], set 3 x 58"),
        ("file /x 644 4096", "make 100644 5 6 [4096], set 1 x 58"),
        (
            "file /x 644 4097",
            "make 100644 5 6 [4096], put 58 4096 1, set 1 x 58",
        ),
        (
            "file /n/x 0 12288",
            "make 100000 5 6 [4096], put 58 4096 4096, put 58 8192 4096, set 10 x 58",
        ),
        ("file / 644 1", "O1 BadPath"),
        ("file x 10000 1", "O1 BadPath"),
        ("file /none/x 644 1", "O3 NotFound"),
        ("file /q/x 10000 1", "O3 NotFound"),
        ("file /a/b 644 1", "O4 NotDirectory"),
        ("file /s/x 10000 0", "O4 NotDirectory"),
        ("file /a 644 1", "O5 Exists"),
        ("file /a 10000 0", "O5 Exists"),
        ("file /d 644 1", "O5 Exists"),
        ("file /q 644 1", "O5 Exists"),
        ("file /h/x 644 1", "O5 Exists"),
        ("file /x 10000 1", "O10 BadMode"),
        ("file /x 100644 0", "O10 BadMode"),
        ("file /x 77777 9000", "O10 BadMode"),
    ]
}

/// A name in the place of another, which may be none, or stand for nothing; and nothing where both
/// are one.
fn replaced() -> &'static [(&'static str, &'static str)] {
    &[
        ("replace /a /b", "set 1 b 2, clear 1 a"),
        ("replace /a /d/f", "set 3 f 2, clear 1 a"),
        ("replace /d/f /a", "set 1 a 5, clear 3 f"),
        ("replace /s /a", "set 1 a 7, clear 1 s"),
        ("replace /c /s", "set 1 s 8, clear 1 c"),
        ("replace /a /q", "set 1 q 2, clear 1 a"),
        ("replace /a /h/x", "set 9 x 2, clear 1 a"),
        ("replace /a /a", ""),
        ("replace /d/f /d/f", ""),
        ("replace a /b", "O1 BadPath"),
        ("replace /a b", "O1 BadPath"),
        ("replace /a /", "O1 BadPath"),
        ("replace / /d", "O1 BadPath"),
        ("replace /none /a", "O3 NotFound"),
        ("replace /none /d", "O3 NotFound"),
        ("replace /q /a", "O3 NotFound"),
        ("replace /q /q", "O3 NotFound"),
        ("replace /d /none/x", "O3 NotFound"),
        ("replace /a/b /d", "O4 NotDirectory"),
        ("replace /a /s/x", "O4 NotDirectory"),
        ("replace /a /d", "O5 Exists"),
        ("replace /d /n", "O5 Exists"),
        ("replace /d /d", "O5 Exists"),
        ("replace /d /x", "O6 WrongKind"),
        ("replace /d /a", "O6 WrongKind"),
        ("replace /d /d/x", "O6 WrongKind"),
    ]
}

/// A file in the place of what its name stands for, but of a directory: its steps are those of a
/// new file.
fn put_over() -> &'static [(&'static str, &'static str)] {
    &[
        ("put /x 644 3", "make 100644 5 6 [ZZZ], set 1 x 58"),
        ("put /a 644 3", "make 100644 5 6 [ZZZ], set 1 a 58"),
        ("put /a 600 0", "make 100600 5 6 [], set 1 a 58"),
        ("put /d/f 7777 4096", "make 107777 5 6 [4096], set 3 f 58"),
        (
            "put /d/f 0 12288",
            "make 100000 5 6 [4096], put 58 4096 4096, put 58 8192 4096, set 3 f 58",
        ),
        ("put /s 644 1", "make 100644 5 6 [Z], set 1 s 58"),
        ("put /c 644 1", "make 100644 5 6 [Z], set 1 c 58"),
        ("put /q 644 1", "make 100644 5 6 [Z], set 1 q 58"),
        ("put /h/x 644 1", "make 100644 5 6 [Z], set 9 x 58"),
        ("put / 644 1", "O1 BadPath"),
        ("put a 10000 1", "O1 BadPath"),
        ("put /none/x 644 1", "O3 NotFound"),
        ("put /q/x 10000 1", "O3 NotFound"),
        ("put /a/b 644 1", "O4 NotDirectory"),
        ("put /s/x 10000 0", "O4 NotDirectory"),
        ("put /d 644 1", "O5 Exists"),
        ("put /n 644 1", "O5 Exists"),
        ("put /d 10000 0", "O5 Exists"),
        ("put /a 10000 1", "O10 BadMode"),
        ("put /x 100644 0", "O10 BadMode"),
    ]
}

/// A name that is removed where it is there, and where it is not, no step.
fn removed_if() -> &'static [(&'static str, &'static str)] {
    &[
        ("remove-if /a", "clear 1 a"),
        ("remove-if /n", "clear 1 n"),
        ("remove-if /q", "clear 1 q"),
        ("remove-if /h/x", "clear 9 x"),
        ("remove-if /d/e/g/i", "clear 6 i"),
        ("remove-if /none", ""),
        ("remove-if /d/none", ""),
        ("remove-if /n/none", ""),
        ("remove-if /", "O1 BadPath"),
        ("remove-if a", "O1 BadPath"),
        ("remove-if /a/", "O1 BadPath"),
        ("remove-if /none/x", "O3 NotFound"),
        ("remove-if /q/x", "O3 NotFound"),
        ("remove-if /a/b", "O4 NotDirectory"),
        ("remove-if /s/x", "O4 NotDirectory"),
        ("remove-if /d", "O7 NotEmpty"),
        ("remove-if /h", "O7 NotEmpty"),
    ]
}

fn attributes() -> &'static [(&'static str, &'static str)] {
    &[
        ("attr / 700", "attr 1 700 5 6 1 2 7"),
        ("attr /a 600", "attr 2 600 5 6 1 2 7"),
        ("attr /d 7777", "attr 3 7777 5 6 1 2 7"),
        ("attr /d/e/g/i 0", "attr 11 0 5 6 1 2 7"),
        ("attr a 600", "O1 BadPath"),
        ("attr  600", "O1 BadPath"),
        ("attr // 600", "O1 BadPath"),
        ("attr /d/ 10000", "O1 BadPath"),
        ("attr /none 600", "O3 NotFound"),
        ("attr /none/x 600", "O3 NotFound"),
        ("attr /q 600", "O3 NotFound"),
        ("attr /q/x 600", "O3 NotFound"),
        ("attr /none 10000", "O3 NotFound"),
        ("attr /a/b 600", "O4 NotDirectory"),
        ("attr /s/x 10000", "O4 NotDirectory"),
        ("attr /s 777", "O6 WrongKind"),
        ("attr /c 600", "O6 WrongKind"),
        ("attr /c 10000", "O6 WrongKind"),
        ("attr /a 10000", "O10 BadMode"),
        ("attr /a 100644", "O10 BadMode"),
        ("attr / 10000", "O10 BadMode"),
    ]
}

/// A symlink's and a device's data must be in their newest nodes.
fn other_kinds() -> &'static [(&'static str, &'static str)] {
    &[
        ("attr /p 600", "attr 2 600 5 6 1 2 7"),
        ("attr /s 600", "attr 3 600 5 6 1 2 7"),
        ("attr /b 600", "O6 WrongKind"),
        ("attr /c 600", "O6 WrongKind"),
        ("attr /l 600", "O6 WrongKind"),
        ("attr /o 600", "O6 WrongKind"),
    ]
}

/// No version is left for names of the root and for its file, and no number for a new object.
fn none_left() -> &'static [(&'static str, &'static str)] {
    &[
        ("create x 644", "O1 BadPath"),
        ("create /none/x 644", "O3 NotFound"),
        ("create /a/b 644", "O4 NotDirectory"),
        ("create /a 644", "O5 Exists"),
        ("link /d /y", "O6 WrongKind"),
        ("remove /d", "O7 NotEmpty"),
        ("rename /d /d/y", "O8 IntoItself"),
        ("write /a 2147483647 1", "O9 TooLarge"),
        ("mkdir /y 10000", "O10 BadMode"),
        ("symlink /y ", "O11 BadTarget"),
        ("mkdir /d/y 755", "O12 Exhausted"),
        ("create /d/y 644", "O12 Exhausted"),
        ("symlink /d/y t", "O12 Exhausted"),
        ("file /d/y 644 9000", "O12 Exhausted"),
        ("put /d/x 644 9000", "O12 Exhausted"),
        ("put /d 644 1", "O5 Exists"),
        ("file /d/y 10000 1", "O10 BadMode"),
        ("file /a/b 644 1", "O4 NotDirectory"),
        ("fifo /d/y 644", "O12 Exhausted"),
        ("socket /d/y 644", "O12 Exhausted"),
        ("write /a 10 1", "O12 Exhausted"),
        ("truncate /a 9", "O12 Exhausted"),
        ("remove /z", "O12 Exhausted"),
        ("remove-if /z", "O12 Exhausted"),
        ("remove-if /y", ""),
        ("remove-if /d/x", "clear 3 x"),
        ("rename /a /d/y", "O12 Exhausted"),
        ("replace /a /d/x", "O12 Exhausted"),
        ("replace /a /a", ""),
        ("attr / 700", "O12 Exhausted"),
        ("attr /a 600", "O12 Exhausted"),
        ("attr /a 10000", "O10 BadMode"),
        ("attr /d 700", "attr 3 700 5 6 1 2 7"),
        ("link /a /d/y", "set 3 y 2"),
        ("truncate /a 10", ""),
        ("write /a 100 0", ""),
    ]
}

/// One version is left for names of the root and for `/a`, two for `/b` and for names of `/e`.
fn few_left() -> &'static [(&'static str, &'static str)] {
    &[
        ("write /a 9 1", "put 2 9 1"),
        ("write /a 10 1", "put 2 10 1"),
        ("write /a 11 1", "O12 Exhausted"),
        ("write /a 4095 2", "O12 Exhausted"),
        ("truncate /a 4", "cut 2 4"),
        ("write /b 11 1", "zero 3 1, put 3 11 1"),
        ("write /b 0 8192", "put 3 0 4096, put 3 4096 4096"),
        ("write /b 0 8193", "O12 Exhausted"),
        ("write /b 4095 2", "O12 Exhausted"),
        ("attr / 700", "attr 1 700 5 6 1 2 7"),
        ("attr /a 600", "attr 2 600 5 6 1 2 7"),
        ("remove /a", "clear 1 a"),
        ("create /y 644", "make 100644 5 6 [], set 1 y 6"),
        (
            "file /y 644 8193",
            "make 100644 5 6 [4096], put 6 4096 4096, put 6 8192 1, set 1 y 6",
        ),
        (
            "put /a 644 8193",
            "make 100644 5 6 [4096], put 6 4096 4096, put 6 8192 1, set 1 a 6",
        ),
        ("remove-if /a", "clear 1 a"),
        ("link /a /y", "set 1 y 2"),
        ("rename /a /y", "O12 Exhausted"),
        ("rename /a /d/y", "set 4 y 2, clear 1 a"),
        ("rename /e/m /e/n", "set 5 n 2, clear 5 m"),
        ("replace /a /b", "O12 Exhausted"),
        ("replace /a /d/y", "set 4 y 2, clear 1 a"),
        ("replace /e/m /e/n", "set 5 n 2, clear 5 m"),
    ]
}

#[test]
fn plans(rt: HostRuntime) -> Result<(), Fail> {
    for rows in [
        bytes(),
        names(),
        nowhere(),
        forbidden(),
        special(),
        root(),
        pairs(),
        later_pairs(),
        missing(),
        files(),
        replaced(),
        put_over(),
        removed_if(),
        attributes(),
    ] {
        agree(&rt, rt.alloc(), small(), rows)?;
    }
    Ok(())
}

#[test]
fn plans_of_other_kinds(rt: HostRuntime) -> Result<(), Fail> {
    agree(&rt, rt.alloc(), kinds(), other_kinds())
}

/// The greatest number alone is left.
fn last() -> &'static [(&'static str, &'static str)] {
    &[
        ("create /y 644", "make 100644 5 6 [], set 1 y 4294967295"),
        (
            "file /y 644 4097",
            "make 100644 5 6 [4096], put 4294967295 4096 1, set 1 y 4294967295",
        ),
        (
            "put /z 644 4097",
            "make 100644 5 6 [4096], put 4294967295 4096 1, set 1 z 4294967295",
        ),
    ]
}

#[test]
fn versions_and_numbers_run_out(rt: HostRuntime) -> Result<(), Fail> {
    let alloc = rt.alloc();
    agree(&rt, alloc, spent(), none_left())?;
    agree(&rt, alloc, almost_spent(), few_left())?;
    agree(&rt, alloc, one_number_left(), last())
}

fn beside_nothing() -> &'static [(&'static str, &'static str)] {
    &[
        ("create /r 644", "make 100644 5 6 [], set 1 r 58"),
        ("create /q 644", "O5 Exists"),
        ("remove /q", "clear 1 q"),
        ("put /q 644 1", "make 100644 5 6 [Z], set 1 q 58"),
        ("remove-if /q", "clear 1 q"),
        ("remove-if /r", ""),
    ]
}

#[test]
fn names_without_objects_count(rt: HostRuntime) -> Result<(), Fail> {
    agree(&rt, rt.alloc(), dangling(), beside_nothing())
}

fn renamed_root() -> &'static [(&'static str, &'static str)] {
    &[
        ("rename /d/r /x", "O8 IntoItself"),
        ("rename /d/r x", "O1 BadPath"),
        ("rename /d/r /", "O1 BadPath"),
        ("rename /d/r /d/r/d/x", "O8 IntoItself"),
        ("rename /d /d/r/x", "O8 IntoItself"),
        ("link /d/r /x", "O6 WrongKind"),
        ("remove /d/r", "O7 NotEmpty"),
        ("attr /d/r 700", "attr 1 700 5 6 1 2 7"),
        ("mkdir /d/r/x 755", "make 40755 5 6 [], set 1 x 4"),
        ("replace /d/r/f /f", ""),
        ("replace /f /d/r/d/f", "set 2 f 3, clear 1 f"),
        ("replace /f /d/r", "O5 Exists"),
        ("put /d/r 644 1", "O5 Exists"),
        ("put /d/r/f 644 1", "make 100644 5 6 [Z], set 1 f 4"),
        ("remove-if /d/r", "O7 NotEmpty"),
    ]
}

#[test]
fn the_root_by_another_name(rt: HostRuntime) -> Result<(), Fail> {
    agree(&rt, rt.alloc(), looped(), renamed_root())
}

fn put_letters(text: &mut String, count: usize) -> Result<(), Fail> {
    for _ in 0..count {
        text.push('x')?;
    }
    Ok(())
}

fn put_lengthened(text: &mut String, line: &str, count: usize) -> Result<(), Fail> {
    let Some((front, back)) = line.split_once('*') else {
        text.push_str(line)?;
        return Ok(());
    };
    text.push_str(front)?;
    put_letters(text, count)?;
    text.push_str(back)?;
    Ok(())
}

/// A line, and in place of its `*` so many letters.
fn lengthened(alloc: Global, line: &str, count: usize) -> Result<String, Fail> {
    let mut text = String::new(alloc);
    put_lengthened(&mut text, line, count)?;
    Ok(text)
}

/// The operation of a line with so many letters has this answer with as many in a tree.
fn agree_long(
    rt: &impl Abort,
    alloc: Global,
    tree: Tree,
    row: (&str, usize, &str),
) -> Result<(), Fail> {
    let (line, count, wanted) = row;
    let line = lengthened(alloc, line, count)?;
    let wanted = lengthened(alloc, wanted, count)?;
    agree(rt, alloc, tree, &[(line.as_str(), wanted.as_str())])
}

fn long() -> &'static [(&'static str, usize, &'static str)] {
    &[
        ("create /* 644", 254, "make 100644 5 6 [], set 1 * 58"),
        ("create /* 644", 255, "O2 NameTooLong"),
        ("create /d/* 644", 255, "O2 NameTooLong"),
        ("file /* 644 2", 254, "make 100644 5 6 [ZZ], set 1 * 58"),
        ("file /* 10000 2", 255, "O2 NameTooLong"),
        ("put /* 644 2", 254, "make 100644 5 6 [ZZ], set 1 * 58"),
        ("put /* 10000 2", 255, "O2 NameTooLong"),
        ("remove-if /*", 254, ""),
        ("remove-if /*", 255, "O2 NameTooLong"),
        ("link /a /*", 255, "O2 NameTooLong"),
        ("rename /a /*", 254, "set 1 * 2, clear 1 a"),
        ("rename x /*", 255, "O1 BadPath"),
        ("replace /a /*", 254, "set 1 * 2, clear 1 a"),
        ("replace /* /d", 255, "O2 NameTooLong"),
        ("rename /* /a", 255, "O2 NameTooLong"),
        ("create /*/x 644", 255, "O2 NameTooLong"),
        ("create /a/* 644", 255, "O2 NameTooLong"),
        ("link /d /*", 255, "O2 NameTooLong"),
        ("rename /d /d/*", 255, "O2 NameTooLong"),
        ("truncate /* 2147483648", 255, "O2 NameTooLong"),
        ("mkdir /* 10000", 255, "O2 NameTooLong"),
        ("symlink /* ", 255, "O2 NameTooLong"),
        ("attr /* 10000", 255, "O2 NameTooLong"),
        ("attr /* 600", 254, "O3 NotFound"),
        ("attr */x 600", 255, "O1 BadPath"),
        ("symlink /x *", 4095, "make 120777 5 6 [*], set 1 x 58"),
        ("symlink /x *", 4096, "O11 BadTarget"),
        ("symlink /a *", 4096, "O5 Exists"),
    ]
}

#[test]
fn long_names_and_targets(rt: HostRuntime) -> Result<(), Fail> {
    for &row in long() {
        agree_long(&rt, rt.alloc(), small(), row)?;
    }
    agree_long(
        &rt,
        rt.alloc(),
        spent(),
        ("create /* 644", 255, "O2 NameTooLong"),
    )
}
