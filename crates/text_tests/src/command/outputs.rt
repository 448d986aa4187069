//! Command lines with the file that is written, with standard input, and those of `history`.

use crate::checks::{equal_at, expect_at};
use crate::command::command_lines::{answer_to, is_wrong, shown_options};
use jcommand::NodeHistory;
use std::alloc::{AllocError, Global};
use std::test::Fail;

/// Whose nodes are to be told of.
pub(crate) fn shown_history(alloc: Global, asked: NodeHistory<&str>) -> Result<String, AllocError> {
    let NodeHistory {
        options,
        since,
        until,
        image,
        path,
    } = asked;
    let command = shown_options(alloc, "history", options)?;
    let path = path.unwrap_or("all");
    match (since, until) {
        (None, None) => format!(in alloc; "{command} {image} {path}"),
        (Some(since), None) => format!(in alloc; "{command} {image} {path} since {since}"),
        (None, Some(until)) => format!(in alloc; "{command} {image} {path} until {until}"),
        (Some(since), Some(until)) => {
            format!(in alloc; "{command} {image} {path} since {since} until {until}")
        }
    }
}

/// Lines, and what they ask for.
const ASKED: [(&str, &str); 16] = [
    ("t history a.img", "history 65536 little a.img all"),
    (
        "t history --since=7 a.img",
        "history 65536 little a.img all since 7",
    ),
    (
        "t history a.img --until 0 /b",
        "history 65536 little a.img /b until 0",
    ),
    (
        "t history --until 9 a.img --since 4294967295",
        "history 65536 little a.img all since 4294967295 until 9",
    ),
    (
        "t history a.img /b -e 128K -b",
        "history 131072 big a.img /b",
    ),
    (
        "t history --auto a.img /b",
        "auto history 65536 little a.img /b",
    ),
    (
        "t build --blocks 8 a.txt -o b.img",
        "build 65536 little 8 4096 a.txt b.img",
    ),
    (
        "t append --blocks 8 -o c.img a.img b.txt",
        "append 65536 little 8 4096 a.img b.txt c.img",
    ),
    (
        "t update a.img --output=c.img b.txt",
        "update 65536 little - 4096 a.img b.txt c.img",
    ),
    (
        "t compress -ob.img a.img",
        "compress 65536 little a.img b.img",
    ),
    (
        "t decompress --output b.img a.img",
        "decompress 65536 little a.img b.img",
    ),
    (
        "t build --blocks 8 -p a.txt b.img",
        "build 65536 little 8 4096 a.txt b.img padded",
    ),
    (
        "t build --blocks 8 -po b.img a.txt",
        "build 65536 little 8 4096 a.txt b.img padded",
    ),
    ("t ls - /b", "ls 65536 little - /b"),
    ("t diff a.img -", "diff 65536 false false a.img -"),
    ("t build --blocks 8 - -o -", "build 65536 little 8 4096 - -"),
];

fn asked_lines() -> &'static [(&'static str, &'static str)] {
    &ASKED
}

#[test]
fn args_that_name_outputs(rt: HostRuntime) -> Result<(), Fail> {
    for &(line, wanted) in asked_lines() {
        let answer = answer_to(rt.alloc(), line)?;
        equal_at(&rt, answer.as_str(), wanted, line);
    }
    Ok(())
}

/// Lines that ask for nothing, and a part of the text that says why.
const WRONG: [(&str, &str); 11] = [
    ("t build --blocks 8 a.txt", "<OUT>"),
    ("t compact a.img", "<OUT>"),
    ("t pack d", "<OUT>"),
    (
        "t compress a.img b.img -o c.img",
        "'--output <FILE>' cannot be used with '[OUT]'",
    ),
    ("t build --blocks 8 -o b.img", "<LISTING>"),
    ("t ls -o b.img a.img", "-o"),
    ("t ls --auto -", "'--auto' cannot be used with '-'"),
    ("t diff -a - b.img", "'--auto' cannot be used with '-'"),
    (
        "t cuts --blocks 8 -a --on - a.txt",
        "'--auto' cannot be used with '-'",
    ),
    ("t history", "<IMAGE>"),
    ("t history --decompress a.img", "--decompress"),
];

fn wrong_lines() -> &'static [(&'static str, &'static str)] {
    &WRONG
}

#[test]
fn args_that_name_no_output(rt: HostRuntime) -> Result<(), Fail> {
    for &(line, part) in wrong_lines() {
        let answer = answer_to(rt.alloc(), line)?;
        expect_at(&rt, is_wrong(answer.as_str(), part), answer.as_str());
    }
    Ok(())
}
