//! Command lines with an image that is to be decompressed.

use crate::checks::{equal_at, expect_at};
use crate::command::command_lines::{answer_to, is_text, is_wrong};
use std::test::Fail;

/// Lines, and what they ask for.
const ASKED: [(&str, &str); 22] = [
    (
        "t check --decompress a.img",
        "check 65536 little a.img decompressed",
    ),
    (
        "t check a.img --shape --endian=big --decompress",
        "check 65536 big a.img shape decompressed",
    ),
    (
        "t check --scan --block=8192 --decompress a.img",
        "scan 8192 little a.img",
    ),
    ("t check -- --decompress", "check 65536 little --decompress"),
    (
        "t decompress --clashes higher a.img b.img",
        "apart 65536 little a.img b.img",
    ),
    (
        "t decompress a.img --endian=big b.img --clashes=higher --block 8192",
        "apart 8192 big a.img b.img",
    ),
    (
        "t decompress a.img b.img",
        "decompress 65536 little a.img b.img",
    ),
    (
        "t decompress --block 8192 a.img a.img --endian=big",
        "decompress 8192 big a.img a.img",
    ),
    (
        "t compress a.img --endian big b.img --block=8192",
        "compress 8192 big a.img b.img",
    ),
    (
        "t compress --force a.img a.img",
        "compress 65536 little a.img a.img forced",
    ),
    (
        "t decompress a.img --force a.img",
        "decompress 65536 little a.img a.img forced",
    ),
    (
        "t decompress --clashes=higher a.img a.img --force",
        "apart 65536 little a.img a.img forced",
    ),
    (
        "t ls --decompress a.img /b",
        "ls 65536 little a.img /b decompressed",
    ),
    (
        "t cat a.img --decompress /b",
        "cat 65536 little a.img /b decompressed",
    ),
    (
        "t cat --strict a.img --decompress /b",
        "strict cat 65536 little a.img /b decompressed",
    ),
    (
        "t cat -b a.img /b --strict",
        "strict cat 65536 big a.img /b",
    ),
    (
        "t cat a.img -- --decompress",
        "cat 65536 little a.img --decompress",
    ),
    (
        "t append --decompress a.img b.txt c.img --blocks 8",
        "append 65536 little 8 4096 a.img b.txt c.img decompressed",
    ),
    (
        "t append a.img b.txt --force a.img --blocks 8",
        "forced append 65536 little 8 4096 a.img b.txt a.img",
    ),
    (
        "t extract a.img b --decompress",
        "extract 65536 false false false a.img b decompressed",
    ),
    (
        "t extract --decompress --owners a.img b",
        "extract 65536 false true false a.img b decompressed",
    ),
    (
        "t extract a.img b c --decompress",
        "extract 65536 false false false a.img bc decompressed",
    ),
];

fn asked() -> &'static [(&'static str, &'static str)] {
    &ASKED
}

#[test]
fn args_that_decompress(rt: HostRuntime) -> Result<(), Fail> {
    for &(line, wanted) in asked() {
        let answer = answer_to(rt.alloc(), line)?;
        equal_at(&rt, answer.as_str(), wanted, line);
    }
    Ok(())
}

/// Lines that ask for nothing, and a part of the text that says why.
const WRONG: [(&str, &str); 22] = [
    ("t decompress --clashes higher a.img", "<OUT>"),
    (
        "t decompress --clashes lower a b",
        "'lower' for '--clashes <RULE>'",
    ),
    ("t decompress --clashes= a b", "'' for '--clashes <RULE>'"),
    ("t decompress a b --clashes", "--clashes <RULE>"),
    ("t ls --clashes higher a", "--clashes"),
    ("t decompress", "<IMAGE>"),
    ("t decompress a.img", "<OUT>"),
    ("t compress a.img", "<OUT>"),
    ("t compress --decompress a.img b.img", "--decompress"),
    ("t decompress a.img b.img c.img", "'c.img'"),
    ("t decompress --decompress a.img b.img", "--decompress"),
    ("t decompress --blocks 8 a.img b.img", "--blocks"),
    (
        "t decompress --block=x a.img b.img",
        "'x' for '--block <N>'",
    ),
    ("t check --decompress", "<IMAGE>"),
    ("t check --decompress --decompress a.img", "--decompress"),
    ("t compress --force --force a.img b.img", "--force"),
    ("t update --force a.img b.txt c.img", "--force"),
    (
        "t build --decompress --blocks 8 a.txt b.img",
        "--decompress",
    ),
    ("t listing --decompress a", "--decompress"),
    ("t ls --strict a.img", "--strict"),
    (
        "t cat --strict --ino 7 a.img",
        "the argument '--ino <I>' cannot be used with '--strict'",
    ),
    ("t ls --decompress --decompress a.img", "--decompress"),
];

fn wrong() -> &'static [(&'static str, &'static str)] {
    &WRONG
}

#[test]
fn args_that_decompress_wrongly(rt: HostRuntime) -> Result<(), Fail> {
    for &(line, part) in wrong() {
        let answer = answer_to(rt.alloc(), line)?;
        expect_at(&rt, is_wrong(answer.as_str(), part), line);
    }
    Ok(())
}

/// Lines that ask for help, and a part of it.
const HELP: [(&str, &str); 8] = [
    (
        "t decompress --help",
        "Usage: t decompress [OPTIONS] <IMAGE> [OUT]",
    ),
    ("t help decompress", "decompressed C nodes N bytes B"),
    ("t check --help", "--decompress"),
    (
        "t help check",
        "are counted in the report, and are no reason for",
    ),
    ("t ls --help", "--decompress"),
    ("t cat --help", "--decompress"),
    ("t append --help", "--decompress"),
    ("t extract --help", "--decompress"),
];

fn help() -> &'static [(&'static str, &'static str)] {
    &HELP
}

#[test]
fn help_on_decompressing(rt: HostRuntime) -> Result<(), Fail> {
    for &(line, part) in help() {
        let answer = answer_to(rt.alloc(), line)?;
        expect_at(
            &rt,
            is_text(answer.as_str(), "help ", [part, "Exit status:"]),
            line,
        );
    }
    Ok(())
}
