//! Command lines that ask for an image of a folder, or say what is done about the file that is
//! written.

use crate::checks::{equal_at, expect_at};
use crate::command::command_lines::{answer_to, is_text, is_wrong, order_name, placing_mark};
use crate::command::updating::shown_blocks;
use jcommand::{Options, Owner, Packing};
use std::alloc::{AllocError, Global};
use std::test::Fail;

/// A folder that is read, after its owner and its time; `-` for one that may be left out and is.
pub(crate) fn shown_folder(
    alloc: Global,
    owner: Option<Owner>,
    time: Option<u32>,
    folder: &str,
) -> Result<String, AllocError> {
    let owner = match owner {
        Some(Owner { uid, gid }) => format!(in alloc; "{uid} {gid}")?,
        None => String::from_str(alloc, "- -")?,
    };
    let time = match time {
        Some(time) => format!(in alloc; "{time}")?,
        None => String::from_str(alloc, "-")?,
    };
    format!(in alloc; "{owner} {time} {folder}")
}

/// What is to be packed, as the values in the order of the command's help.
pub(crate) fn shown_packing(
    alloc: Global,
    name: &str,
    asked: Packing<&str>,
) -> Result<String, AllocError> {
    let Options { geometry, endian } = asked.options;
    let block = geometry.block;
    let order = order_name(endian);
    let page = asked.page.size();
    let blocks = shown_blocks(alloc, asked.blocks)?;
    let folder = shown_folder(alloc, asked.owner, asked.time, asked.folder)?;
    let weak = if asked.weak { " weak" } else { "" };
    let quiet = if asked.quiet { " quiet" } else { "" };
    let output = asked.output;
    let flash = format!(in alloc; "{block} {order} {blocks} {page}")?;
    let placing = placing_mark(asked.placing);
    format!(in alloc; "{name} {flash} {folder} {output}{weak}{quiet}{placing}")
}

/// Lines that ask for an image of a folder, and what they ask for.
const PACKED: [(&str, &str); 10] = [
    (
        "t pack --compress a b.img",
        "compressed pack 65536 little - 4096 - - - a b.img",
    ),
    (
        "t pack --blocks=8 --pad a --owner 0 7 --compress b.img --time 9 --atomic",
        "compressed pack 65536 little 8 4096 0 7 9 a b.img padded atomic",
    ),
    ("t pack a b.img", "pack 65536 little - 4096 - - - a b.img"),
    (
        "t pack a --blocks 8 b.img --time 0",
        "pack 65536 little 8 4096 - - 0 a b.img",
    ),
    (
        "t pack --weak a b.img",
        "pack 65536 little - 4096 - - - a b.img weak",
    ),
    (
        "t pack a b.img --quiet",
        "pack 65536 little - 4096 - - - a b.img quiet",
    ),
    (
        "t pack --pad a b.img",
        "pack 65536 little - 4096 - - - a b.img padded",
    ),
    (
        "t pack --atomic -- --pad --weak",
        "pack 65536 little - 4096 - - - --pad --weak atomic",
    ),
    (
        "t pack --blocks=0 --owner 0 65535 b.img a",
        "pack 65536 little 0 4096 0 65535 - b.img a",
    ),
    (
        "t pack --owner 7 8 --time=9 --quiet --blocks=4294967295 --page 8192 --weak --pad --atomic \
         --block=8192 --endian big a b.img",
        "pack 8192 big 4294967295 8192 7 8 9 a b.img weak quiet padded atomic",
    ),
];

fn packed() -> &'static [(&'static str, &'static str)] {
    &PACKED
}

#[test]
fn args_that_pack(rt: HostRuntime) -> Result<(), Fail> {
    for &(line, wanted) in packed() {
        let answer = answer_to(rt.alloc(), line)?;
        equal_at(&rt, answer.as_str(), wanted, line);
    }
    Ok(())
}

/// Lines of other commands that say what is done about the file that is written.
const PLACED: [(&str, &str); 17] = [
    (
        "t build --blocks 8 --compress a.txt b.img",
        "compressed build 65536 little 8 4096 a.txt b.img",
    ),
    (
        "t build --pad --page=8192 --compress --endian=big --blocks 8 --atomic a.txt b.img",
        "compressed build 65536 big 8 8192 a.txt b.img padded atomic",
    ),
    (
        "t cuts --compress --blocks 8 a.txt",
        "through cuts 65536 little 8 4096 - a.txt compressed",
    ),
    (
        "t cuts --decompress --blocks 8 --on a.img --page 16384 b.txt --endian big",
        "through cuts 65536 big 8 16384 a.img b.txt",
    ),
    (
        "t cuts --on a.img --decompress --blocks 8 --compress --block 8192 b.txt",
        "through cuts 8192 little 8 4096 a.img b.txt compressed",
    ),
    (
        "t compact --clashes higher --blocks 8 a.img b.img --force",
        "compact apart 65536 little a.img b.img forced 8",
    ),
    (
        "t build --blocks 8 --pad a.txt b.img",
        "build 65536 little 8 4096 a.txt b.img padded",
    ),
    (
        "t build --blocks 8 a.txt b.img --atomic",
        "build 65536 little 8 4096 a.txt b.img atomic",
    ),
    (
        "t build --weak --atomic --blocks 8 --pad a.txt b.img",
        "weak build 65536 little 8 4096 a.txt b.img padded atomic",
    ),
    (
        "t append --blocks 8 --pad a.img b.txt c.img",
        "append 65536 little 8 4096 a.img b.txt c.img padded",
    ),
    (
        "t append --atomic --decompress --blocks 8 a.img b.txt c.img",
        "append 65536 little 8 4096 a.img b.txt c.img decompressed atomic",
    ),
    (
        "t decompress --atomic a.img b.img",
        "decompress 65536 little a.img b.img atomic",
    ),
    (
        "t decompress --atomic --clashes higher a.img b.img",
        "apart 65536 little a.img b.img atomic",
    ),
    (
        "t compress a.img --atomic b.img",
        "compress 65536 little a.img b.img atomic",
    ),
    (
        "t compact a.img b.img",
        "compact 65536 little a.img b.img -",
    ),
    (
        "t compact --blocks 8 --pad a.img b.img",
        "compact 65536 little a.img b.img padded 8",
    ),
    (
        "t compact a.img --force --atomic --pad --endian=big --block 8192 a.img --blocks=0",
        "compact 8192 big a.img a.img forced padded atomic 0",
    ),
];

fn placed() -> &'static [(&'static str, &'static str)] {
    &PLACED
}

#[test]
fn args_that_place(rt: HostRuntime) -> Result<(), Fail> {
    for &(line, wanted) in placed() {
        let answer = answer_to(rt.alloc(), line)?;
        equal_at(&rt, answer.as_str(), wanted, line);
    }
    Ok(())
}

/// Lines that ask for nothing, and a part of the text that says why.
const WRONG: [(&str, &str); 29] = [
    ("t build --weak --compress --blocks 8 a.txt b.img", "--weak"),
    ("t pack --compress a --weak b.img", "--weak"),
    ("t compact --clashes lower a.img b.img", "higher"),
    (
        "t compact --clashes higher --blocks x a.img b.img",
        "--blocks <N>",
    ),
    ("t pack", "<DIR>"),
    ("t pack a", "<OUT>"),
    ("t pack a b c", "'c'"),
    ("t pack --decompress a b", "--decompress"),
    ("t pack --owners a b", "--owners"),
    ("t pack --on c a b", "--on"),
    ("t pack --pad --pad a b", "--pad"),
    ("t pack --atomic=yes a b", "--atomic"),
    ("t pack --block x a b", "'x' for '--block <N>'"),
    (
        "t pack --endian middle a b",
        "'middle' for '--endian <ORDER>'",
    ),
    ("t pack --blocks= a b", "'' for '--blocks <N>'"),
    (
        "t pack --blocks 4294967296 a b",
        "'4294967296' for '--blocks <N>'",
    ),
    ("t pack --blocks x --page 1 a b", "'x' for '--blocks <N>'"),
    ("t pack --page 4095 a b", "'4095' for '--page <N>'"),
    ("t pack --page 1 --owner 1 x a b", "'1' for '--page <N>'"),
    (
        "t pack --owner 1 x --time y a b",
        "'x' for '--owner <UID> <GID>'",
    ),
    (
        "t pack --owner 65536 1 a b",
        "'65536' for '--owner <UID> <GID>'",
    ),
    (
        "t pack --time 4294967296 a b",
        "'4294967296' for '--time <T>'",
    ),
    ("t decompress --pad a.img b.img", "--pad"),
    ("t compact a.img", "<OUT>"),
    ("t compact --weak a.img b.img", "--weak"),
    ("t compact --page 4096 a.img b.img", "--page"),
    ("t compact --blocks=x a.img b.img", "'x' for '--blocks <N>'"),
    ("t extract --atomic a.img b", "--atomic"),
    ("t cuts --atomic --blocks 8 a", "--atomic"),
];

fn wrong() -> &'static [(&'static str, &'static str)] {
    &WRONG
}

#[test]
fn args_that_pack_wrongly(rt: HostRuntime) -> Result<(), Fail> {
    for &(line, part) in wrong() {
        let answer = answer_to(rt.alloc(), line)?;
        expect_at(&rt, is_wrong(answer.as_str(), part), line);
    }
    Ok(())
}

/// Lines that ask for help, and a part of it.
const HELP: [(&str, &str); 9] = [
    ("t pack --help", "Usage: t pack [OPTIONS] <DIR> [OUT]"),
    (
        "t help pack",
        "the image that build makes of the listing of DIR",
    ),
    (
        "t build --help",
        "Fill OUT with 0xFF to the end of the flash",
    ),
    (
        "t append --help",
        "Replace an old OUT only if all goes well",
    ),
    ("t decompress --help", "--atomic"),
    ("t compress --help", "--atomic"),
    ("t --help", "jffs2_image pack --compress tree flash.img"),
    ("t --help", "damage a loss"),
    ("t --help", "extract, listing, pack or --clashes left"),
];

fn help() -> &'static [(&'static str, &'static str)] {
    &HELP
}

#[test]
fn help_on_packing(rt: HostRuntime) -> Result<(), Fail> {
    for &(line, part) in help() {
        let answer = answer_to(rt.alloc(), line)?;
        expect_at(
            &rt,
            is_text(answer.as_str(), "help ", [part, "Exit status:"]),
            line,
        );
    }
    Ok(())
}
