//! Command lines with `--auto`: the options of the command are found in its image.

use crate::checks::{equal_at, expect_at};
use crate::command::command_lines::{answer_to, is_wrong, shown};
use jcommand::{Options, asked};
use jnode::Endian;
use jscan::Geometry;
use std::alloc::{AllocError, Global};
use std::test::Fail;

/// Words, and what they ask for: with the options that nobody gave, of which the image is read, and
/// with those of blocks of 8192 bytes in the big order that are found.
struct Row {
    line: &'static str,
    asked: &'static str,
    image: &'static str,
    done: &'static str,
}

const READING: [Row; 9] = [
    Row {
        line: "t verify -a --times i d",
        asked: "auto verify 65536 little i - - - d times",
        image: "i",
        done: "verify 8192 big i - - - d times",
    },
    Row {
        line: "t check --scan -a i",
        asked: "auto scan 65536 little i",
        image: "i",
        done: "scan 8192 big i",
    },
    Row {
        line: "t check -a --shape i",
        asked: "auto check 65536 little i shape",
        image: "i",
        done: "check 8192 big i shape decompressed",
    },
    Row {
        line: "t ls --auto i /p",
        asked: "auto ls 65536 little i /p",
        image: "i",
        done: "ls 8192 big i /p decompressed",
    },
    Row {
        line: "t cat i /p -a",
        asked: "auto cat 65536 little i /p",
        image: "i",
        done: "cat 8192 big i /p decompressed",
    },
    Row {
        line: "t diff -a --times i j",
        asked: "auto diff 65536 false true i j",
        image: "i",
        done: "diff 8192 true true i j decompressed",
    },
    Row {
        line: "t damage --auto i",
        asked: "auto damage 65536 little i",
        image: "i",
        done: "damage 8192 big i decompressed",
    },
    Row {
        line: "t map -a --svg i",
        asked: "auto map 65536 little i svg",
        image: "i",
        done: "map 8192 big i svg",
    },
    Row {
        line: "t extract -a i d",
        asked: "auto extract 65536 false false false i d",
        image: "i",
        done: "extract 8192 true false false i d decompressed",
    },
];

const WRITING: [Row; 10] = [
    Row {
        line: "t cuts -a --blocks 8 --on i l",
        asked: "auto cuts 65536 false 8 4096 i l",
        image: "i",
        done: "through cuts 8192 big 8 4096 i l",
    },
    Row {
        line: "t cuts -a --compress --blocks 8 --on i l",
        asked: "auto through cuts 65536 little 8 4096 i l compressed",
        image: "i",
        done: "through cuts 8192 big 8 4096 i l compressed",
    },
    Row {
        line: "t cuts -a --update --plain --on i l",
        asked: "auto update cuts 65536 little - 4096 i l plain",
        image: "i",
        done: "update cuts 8192 big - 4096 i l plain",
    },
    Row {
        line: "t append -a --blocks 8 i l o",
        asked: "auto append 65536 little 8 4096 i l o",
        image: "i",
        done: "append 8192 big 8 4096 i l o decompressed",
    },
    Row {
        line: "t update -a --tail i l o",
        asked: "auto update 65536 little - 4096 i l o tail",
        image: "i",
        done: "update 8192 big - 4096 i l o tail",
    },
    Row {
        line: "t decompress -a i o",
        asked: "auto decompress 65536 little i o",
        image: "i",
        done: "decompress 8192 big i o",
    },
    Row {
        line: "t decompress -a --clashes higher i o",
        asked: "auto apart 65536 little i o",
        image: "i",
        done: "apart 8192 big i o",
    },
    Row {
        line: "t compress --auto --force i i",
        asked: "auto compress 65536 little i i forced",
        image: "i",
        done: "compress 8192 big i i forced",
    },
    Row {
        line: "t compact -a --blocks 3 i o",
        asked: "auto compact 65536 little i o 3",
        image: "i",
        done: "compact 8192 big i o 3",
    },
    Row {
        line: "t compact -a --clashes higher i o",
        asked: "auto compact apart 65536 little i o -",
        image: "i",
        done: "compact apart 8192 big i o -",
    },
];

/// What is asked for is done with the options that are found.
fn done(alloc: Global, line: &str) -> Result<String, AllocError> {
    let args: Vec<&str> = line.split_whitespace().collect(alloc)?;
    let options = Options {
        geometry: Geometry { block: 8192 },
        endian: Endian::Big,
    };
    let Ok(request) = asked(alloc, args.as_slice()) else {
        return String::from_str(alloc, "nothing");
    };
    let image = request.command.image().unwrap_or("none");
    let writes = request.command.writes_image();
    let command = shown(alloc, request.command.with_options(options))?;
    format!(in alloc; "{image} {writes} {command}")
}

fn rows(writing: bool) -> &'static [Row] {
    if writing { &WRITING } else { &READING }
}

#[test]
fn options_are_found(rt: HostRuntime) -> Result<(), Fail> {
    for writing in [false, true] {
        for row in rows(writing) {
            let answer = answer_to(rt.alloc(), row.line)?;
            equal_at(&rt, answer.as_str(), row.asked, row.line);
            let found = done(rt.alloc(), row.line)?;
            let wanted = format!(in rt.alloc(); "{} {writing} {}", row.image, row.done)?;
            equal_at(&rt, found.as_str(), wanted.as_str(), row.line);
        }
    }
    Ok(())
}

/// Words that are wrong, and a part of what is told of them.
fn wrong() -> &'static [(&'static str, &'static str)] {
    &[
        (
            "t ls -a --block 65536 i",
            "'--auto' cannot be used with '--block <N>'",
        ),
        (
            "t ls -a -e 8K i",
            "'--auto' cannot be used with '--block <N>'",
        ),
        (
            "t ls --eraseblock 8K i -a",
            "'--auto' cannot be used with '--block <N>'",
        ),
        (
            "t ls -a --block x i",
            "'--auto' cannot be used with '--block <N>'",
        ),
        (
            "t ls -a --endian=little i",
            "'--auto' cannot be used with '--endian <ORDER>'",
        ),
        (
            "t ls -al i",
            "'--auto' cannot be used with '--little-endian'",
        ),
        (
            "t cat -ab i /p",
            "'--auto' cannot be used with '--big-endian'",
        ),
        (
            "t ls -a --decompress i",
            "'--auto' cannot be used with '--decompress'",
        ),
        ("t cuts -a --blocks 8 l", "--on <IMAGE>"),
        (
            "t compact -a --blocks x i o",
            "invalid value 'x' for '--blocks <N>'",
        ),
        ("t build -a --blocks 8 l o", "-a"),
        ("t pack --auto d o", "--auto"),
        ("t listing -a d", "-a"),
        ("t info --auto i", "--auto"),
    ]
}

#[test]
fn options_that_are_given_too(rt: HostRuntime) -> Result<(), Fail> {
    for &(line, part) in wrong() {
        let answer = answer_to(rt.alloc(), line)?;
        expect_at(&rt, is_wrong(answer.as_str(), part), line);
    }
    Ok(())
}
