//! Command lines that ask for a device's image to be updated, or where its nodes lie.

use crate::checks::{equal_at, expect_at};
use crate::command::command_lines::{answer_to, is_text, is_wrong, placing_mark, shown_options};
use jcommand::{Mapping, UpdateCuts, Updating};
use std::alloc::{AllocError, Global};
use std::test::Fail;

/// The number of blocks; `-` where it is not given.
pub(crate) fn shown_blocks(alloc: Global, blocks: Option<u32>) -> Result<String, AllocError> {
    match blocks {
        Some(blocks) => format!(in alloc; "{blocks}"),
        None => String::from_str(alloc, "-"),
    }
}

/// What is to be updated, as the values in the order of the command's help.
pub(crate) fn shown_updating(alloc: Global, asked: Updating<&str>) -> Result<String, AllocError> {
    let command = shown_options(alloc, "update", asked.options)?;
    let blocks = shown_blocks(alloc, asked.blocks)?;
    let page = asked.page.size();
    let plain = if asked.plain { " plain" } else { "" };
    let tail = if asked.tail { " tail" } else { "" };
    let placing = placing_mark(asked.placing);
    let Updating {
        image,
        listing,
        output,
        ..
    } = asked;
    let files = format!(in alloc; "{image} {listing} {output}")?;
    format!(in alloc; "{command} {blocks} {page} {files}{plain}{tail}{placing}")
}

/// What is to be told of a stop of it, in the same way.
pub(crate) fn shown_update_cuts(
    alloc: Global,
    asked: UpdateCuts<&str>,
) -> Result<String, AllocError> {
    let command = shown_options(alloc, "update cuts", asked.options)?;
    let blocks = shown_blocks(alloc, asked.blocks)?;
    let page = asked.page.size();
    let plain = if asked.plain { " plain" } else { "" };
    let tail = if asked.tail { " tail" } else { "" };
    let UpdateCuts { image, listing, .. } = asked;
    format!(in alloc; "{command} {blocks} {page} {image} {listing}{plain}{tail}")
}

/// Whose nodes are to be told of in the same way.
pub(crate) fn shown_mapping(alloc: Global, asked: Mapping<&str>) -> Result<String, AllocError> {
    let Mapping {
        options,
        svg,
        image,
    } = asked;
    let command = shown_options(alloc, "map", options)?;
    let svg = if svg { " svg" } else { "" };
    format!(in alloc; "{command} {image}{svg}")
}

/// Lines, and what they ask for.
const ASKED: [(&str, &str); 18] = [
    (
        "t update a.img b.txt c.img",
        "update 65536 little - 4096 a.img b.txt c.img",
    ),
    (
        "t update a.img --blocks 8 b.txt c.img",
        "update 65536 little 8 4096 a.img b.txt c.img",
    ),
    (
        "t update --blocks=0 a.img b.txt --plain a.img",
        "update 65536 little 0 4096 a.img b.txt a.img plain",
    ),
    (
        "t update --tail a.img b.txt c.img",
        "update 65536 little - 4096 a.img b.txt c.img tail",
    ),
    (
        "t update a.img b.txt c.img --pad",
        "update 65536 little - 4096 a.img b.txt c.img padded",
    ),
    (
        "t update a.img b.txt --atomic c.img --page=8192",
        "update 65536 little - 8192 a.img b.txt c.img atomic",
    ),
    (
        "t update --block=8192 --blocks=4294967295 --page 16384 --endian big --plain --tail --pad \
         --atomic a.img b.txt c.img",
        "update 8192 big 4294967295 16384 a.img b.txt c.img plain tail padded atomic",
    ),
    (
        "t update --plain -- --tail --pad --atomic",
        "update 65536 little - 4096 --tail --pad --atomic plain",
    ),
    (
        "t cuts --update --on a.img b.txt",
        "update cuts 65536 little - 4096 a.img b.txt",
    ),
    (
        "t cuts b.txt --tail --on=a.img --update --blocks 8",
        "update cuts 65536 little 8 4096 a.img b.txt tail",
    ),
    (
        "t cuts --plain --update --page 8192 --on=--update b.txt -e 8KiB -b",
        "update cuts 8192 big - 8192 --update b.txt plain",
    ),
    (
        "t cuts --blocks=0 --on a.img --plain --update --tail -- --tail",
        "update cuts 65536 little 0 4096 a.img --tail plain tail",
    ),
    ("t map a.img", "map 65536 little a.img"),
    ("t map --svg a.img", "map 65536 little a.img svg"),
    ("t map a.img --block 8192", "map 8192 little a.img"),
    ("t map a.img --endian=big", "map 65536 big a.img"),
    (
        "t map --endian big --block=4096 a.img --svg",
        "map 4096 big a.img svg",
    ),
    ("t map -- --svg", "map 65536 little --svg"),
];

fn asked() -> &'static [(&'static str, &'static str)] {
    &ASKED
}

#[test]
fn args_that_update_and_map(rt: HostRuntime) -> Result<(), Fail> {
    for &(line, wanted) in asked() {
        let answer = answer_to(rt.alloc(), line)?;
        equal_at(&rt, answer.as_str(), wanted, line);
    }
    Ok(())
}

/// Lines that ask for nothing, and a part of the text that says why.
const WRONG: [(&str, &str); 40] = [
    ("t update", "<IMAGE>"),
    ("t update a.img", "<LISTING>"),
    ("t update a.img b.txt", "<OUT>"),
    ("t update a b c d", "'d'"),
    ("t update --weak a b c", "--weak"),
    ("t update --decompress a b c", "--decompress"),
    ("t update --force a b c", "--force"),
    ("t update --plain --plain a b c", "--plain"),
    ("t update --tail=yes a b c", "--tail"),
    ("t update a b c --blocks", "--blocks <N>"),
    ("t update --blocks=x a b c", "'x' for '--blocks <N>'"),
    (
        "t update --blocks=4294967296 a b c",
        "'4294967296' for '--blocks <N>'",
    ),
    ("t update --page 4095 a b c", "'4095' for '--page <N>'"),
    (
        "t update --page 1 --blocks x a b c",
        "'x' for '--blocks <N>'",
    ),
    ("t update --block=x a b c", "'x' for '--block <N>'"),
    (
        "t update --endian=middle --blocks=x a b c",
        "'middle' for '--endian <ORDER>'",
    ),
    ("t cuts --update", "<LISTING>"),
    ("t cuts --update b", "--on <IMAGE>"),
    ("t cuts --update --blocks 8 --tail b", "--on <IMAGE>"),
    ("t cuts --update -a b", "--on <IMAGE>"),
    ("t cuts --update --on a", "<LISTING>"),
    ("t cuts --update --on a b c", "'c'"),
    ("t cuts --update --update --on a b", "--update"),
    ("t cuts --tail --blocks 8 --on a b", "provided:\n  --update"),
    ("t cuts --plain --blocks 8 b", "provided:\n  --update"),
    (
        "t cuts --plain --tail --compress --on a b",
        "provided:\n  --update",
    ),
    ("t cuts --on a b", "provided:\n  --blocks <N>"),
    (
        "t cuts --update --compress --on a b",
        "'--update' cannot be used with '--compress'",
    ),
    (
        "t cuts --decompress --update --on a b",
        "'--update' cannot be used with '--decompress'",
    ),
    (
        "t cuts --update -a --big-endian --on a b",
        "'--auto' cannot be used with '--big-endian'",
    ),
    (
        "t cuts --update --on a --blocks x b",
        "'x' for '--blocks <N>'",
    ),
    (
        "t cuts --update --on a --page 4095 b",
        "'4095' for '--page <N>'",
    ),
    ("t map", "<IMAGE>"),
    ("t map --svg", "<IMAGE>"),
    ("t map a.img b.img", "'b.img'"),
    ("t map --decompress a.img", "--decompress"),
    ("t map --blocks 8 a.img", "--blocks"),
    ("t map --svg --svg a.img", "--svg"),
    ("t map --block= a.img", "'' for '--block <N>'"),
    ("t map --endian BIG a.img", "'BIG' for '--endian <ORDER>'"),
];

fn wrong() -> &'static [(&'static str, &'static str)] {
    &WRONG
}

#[test]
fn args_that_update_and_map_wrongly(rt: HostRuntime) -> Result<(), Fail> {
    for &(line, part) in wrong() {
        let answer = answer_to(rt.alloc(), line)?;
        expect_at(&rt, is_wrong(answer.as_str(), part), line);
    }
    Ok(())
}

/// Lines that ask for help, and a part of it.
const HELP: [(&str, &str); 9] = [
    (
        "t update --help",
        "Usage: t update [OPTIONS] <IMAGE> <LISTING> [OUT]",
    ),
    ("t update -h", "Do not compress new nodes"),
    ("t help update", "new nodes in its blank blocks"),
    ("t cuts --help", "Usage: t cuts [OPTIONS] <LISTING>"),
    (
        "t cuts -h",
        "Take what update would write to the IMAGE of --on",
    ),
    ("t map --help", "Usage: t map [OPTIONS] <IMAGE>"),
    ("t map -h", "Print one SVG picture instead"),
    ("t --help", "jffs2_image update dump.img more.txt new.img"),
    ("t --help", "jffs2_image map dump.img"),
];

fn help() -> &'static [(&'static str, &'static str)] {
    &HELP
}

#[test]
fn help_on_updating_and_mapping(rt: HostRuntime) -> Result<(), Fail> {
    for &(line, part) in help() {
        let answer = answer_to(rt.alloc(), line)?;
        expect_at(
            &rt,
            is_text(answer.as_str(), "help ", [part, "Exit status:"]),
            line,
        );
    }
    Ok(())
}
