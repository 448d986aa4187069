//! Command lines with `--oob`, `--offset` and `--length`: the part of a file that is the image, and
//! the images that are such parts; and those with `--json`.

use crate::checks::{equal_at, expect_at};
use crate::command::command_lines::{answer_to, is_wrong};
use jcommand::{Request, asked};
use std::alloc::{AllocError, Global};
use std::test::Fail;

/// Words, and what they ask for: the bytes of a page, the spare ones behind it, the offset and the
/// length of the image, whether lines are JSON, two images, and the file that is made.
const ROWS: [(&str, &str); 20] = [
    ("t info --oob 512+16 i", "512 16 0 - text i - -"),
    ("t ls --auto --oob=2048+64 i /p", "2048 64 0 - text i - -"),
    ("t diff --oob 4096+224 i j", "4096 224 0 - text i j -"),
    ("t verify --oob=1+0 i d", "1 0 0 - text i - -"),
    (
        "t append --oob 65536+65536 --blocks 8 i l o",
        "65536 65536 0 - text i - o",
    ),
    (
        "t cuts --oob=512+16 --blocks 8 --on i l",
        "512 16 0 - text i - -",
    ),
    (
        "t decompress --offset 0x80000 --length 4MiB i o",
        "0 0 524288 4194304 text i - o",
    ),
    (
        "t map --oob 2048+64 --offset=1K --length=12 i",
        "2048 64 1024 12 text i - -",
    ),
    (
        "t cat --length 4294967295 i /p",
        "0 0 0 4294967295 text i - -",
    ),
    ("t damage --offset 0 i", "0 0 0 - text i - -"),
    (
        "t update --offset 4294967295 i l -o o",
        "0 0 4294967295 - text i - o",
    ),
    ("t info --json i", "- json i - -"),
    ("t check --json --scan --offset 7 i", "0 0 7 - json i - -"),
    ("t ls --json i", "- json i - -"),
    ("t history --json i /p", "- json i - -"),
    ("t verify --json --auto i d", "- json i - -"),
    ("t cuts --json --blocks 8 l", "- json - - -"),
    ("t cuts --blocks 8 l", "- text - - -"),
    ("t extract i d", "- text i - -"),
    ("t pack d o", "- text - - o"),
];

fn rows() -> &'static [(&'static str, &'static str)] {
    &ROWS
}

/// The part of a file, if one is given.
fn part_of(alloc: Global, request: &Request<&str>) -> Result<String, AllocError> {
    let Some(region) = request.region else {
        return String::from_str(alloc, "-");
    };
    let (page, spare) = match region.layout {
        Some(layout) => (layout.page, layout.spare),
        None => (0, 0),
    };
    let offset = region.offset;
    match region.length {
        Some(length) => format!(in alloc; "{page} {spare} {offset} {length}"),
        None => format!(in alloc; "{page} {spare} {offset} -"),
    }
}

/// What a line asks for.
fn told(alloc: Global, line: &str) -> Result<String, AllocError> {
    let args: Vec<&str> = line.split_whitespace().collect(alloc)?;
    let Ok(request) = asked(alloc, args.as_slice()) else {
        return String::from_str(alloc, "nothing");
    };
    let part = part_of(alloc, &request)?;
    let form = if request.json { "json" } else { "text" };
    let images = request.command.images(alloc)?;
    let first = images.first().copied().unwrap_or("-");
    let second = images.get(1).copied().unwrap_or("-");
    let made = request.command.file_made().unwrap_or("-");
    format!(in alloc; "{part} {form} {first} {second} {made}")
}

#[test]
fn parts_are_given(rt: HostRuntime) -> Result<(), Fail> {
    for &(line, wanted) in rows() {
        let found = told(rt.alloc(), line)?;
        equal_at(&rt, found.as_str(), wanted, line);
    }
    Ok(())
}

/// Words that are wrong, and a part of what is printed then.
fn wrong() -> &'static [(&'static str, &'static str)] {
    &[
        ("t ls --oob 64 i", "invalid value '64' for '--oob <P+S>'"),
        ("t info --oob=0+64 i", "invalid value '0+64'"),
        ("t map --oob 2048+65537 i", "invalid value '2048+65537'"),
        ("t cuts --oob=512+16 --blocks 8 l", "--on <IMAGE>"),
        ("t cuts --offset=16 --blocks 8 l", "--on <IMAGE>"),
        ("t ls --offset x i", "invalid value 'x' for '--offset <A>'"),
        ("t ls --offset 4GiB i", "invalid value '4GiB'"),
        ("t ls --length 0 i", "invalid value '0' for '--length <N>'"),
        ("t ls --length 4294967296 i", "invalid value '4294967296'"),
        (
            "t map --svg --json i",
            "the argument '--json' cannot be used with '--svg'",
        ),
        (
            "t build --oob=512+16 --blocks 8 l o",
            "unexpected argument '--oob' found",
        ),
        (
            "t pack --offset 1 d o",
            "unexpected argument '--offset' found",
        ),
        ("t cat --json i /p", "unexpected argument '--json' found"),
    ]
}

#[test]
fn parts_that_are_wrong(rt: HostRuntime) -> Result<(), Fail> {
    for &(line, part) in wrong() {
        let answer = answer_to(rt.alloc(), line)?;
        expect_at(&rt, is_wrong(answer.as_str(), part), line);
    }
    Ok(())
}
