//! Command lines that ask for a folder.

use crate::checks::{equal_at, expect_at};
use crate::command::command_lines::answer_to;
use std::test::Fail;

/// Words, and what they ask for.
fn asked() -> &'static [(&'static str, &'static str)] {
    &[
        (
            "t extract a.img b",
            "extract 65536 false false false a.img b",
        ),
        (
            "t extract --owners a.img --quiet b --endian=big --block 8192",
            "extract 8192 true true true a.img b",
        ),
        (
            "t extract a.img b /c --owners",
            "extract 65536 false true false a.img b/c",
        ),
        (
            "t extract --deleted a.img b",
            "extract 65536 false false false a.img b deleted",
        ),
        (
            "t extract a.img b --decompress --quiet --deleted -b",
            "extract 65536 true false true a.img b decompressed deleted",
        ),
        ("t listing a", "listing 1 1 1 false a"),
        (
            "t listing --owner 0 65535 --time 4294967295 a",
            "listing 0 65535 4294967295 false a",
        ),
        ("t listing a --quiet --owner 007 8", "listing 7 8 1 true a"),
        ("t listing --time=0 -- --time", "listing 1 1 0 false --time"),
    ]
}

#[test]
fn args_that_ask_for_a_folder(rt: HostRuntime) -> Result<(), Fail> {
    for &(line, wanted) in asked() {
        let answer = answer_to(rt.alloc(), line)?;
        equal_at(&rt, answer.as_str(), wanted, line);
    }
    Ok(())
}

/// Words that are wrong, and a part of what is told of them.
fn wrong() -> &'static [(&'static str, &'static str)] {
    &[
        ("t listing", "DIR"),
        ("t listing a b", "b"),
        ("t listing --owner 1 a", "--owner"),
        ("t listing --owner 1 2 3 a", "a"),
        (
            "t listing --owner 65536 2 a",
            "invalid value '65536' for '--owner <UID> <GID>'",
        ),
        (
            "t listing --owner 1 x a",
            "invalid value 'x' for '--owner <UID> <GID>'",
        ),
        ("t listing --time x a", "invalid value 'x' for '--time <T>'"),
        ("t listing --time 4294967296 a", "below 4294967296"),
        ("t listing --block 4096 a", "--block"),
        ("t extract a.img", "DIR"),
        ("t extract a.img b /c /d", "'/d'"),
        (
            "t extract --deleted a.img b /c",
            "the argument '--deleted' cannot be used with '[PATH]'",
        ),
        (
            "t history --since x a.img",
            "invalid value 'x' for '--since <T>'",
        ),
        (
            "t history --since 1 --until 4294967296 a.img",
            "invalid value '4294967296' for '--until <T>'",
        ),
        ("t extract --owner 1 2 a.img b", "--owner"),
        (
            "t extract --block x a.img b",
            "invalid value 'x' for '--block <N>'",
        ),
    ]
}

#[test]
fn args_that_are_wrong_of_a_folder(rt: HostRuntime) -> Result<(), Fail> {
    for &(line, part) in wrong() {
        let answer = answer_to(rt.alloc(), line)?;
        let is_right = answer.starts_with("wrong error: ") && answer.contains(part);
        expect_at(&rt, is_right, (line, answer));
    }
    Ok(())
}
