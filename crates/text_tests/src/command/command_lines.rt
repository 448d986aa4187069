//! Command lines with what they ask for or are answered. The words of a line are between spaces,
//! and the first is the program's own name.

use crate::checks::{equal, equal_at, expect, expect_at};
use crate::command::inodes::shown_inode;
use crate::command::outputs::shown_history;
use crate::command::packing::shown_packing;
use crate::command::updating::{shown_mapping, shown_update_cuts, shown_updating};
use crate::command::verifying::shown_verification;
use jcommand::{
    Appending, Building, Check, Command, Compaction, Comparison, Conversion, Cuts, CutsThrough,
    Examination, Extraction, FileContent, FolderListing, Image, Options, Outcome, Owner, Placing,
    Request, RequestFault, Target, TreeListing, asked, status,
};
use jnode::Endian;
use std::alloc::{AllocError, Global};
use std::test::Fail;

pub(crate) fn order_name(endian: Endian) -> &'static str {
    match endian {
        Endian::Little => "little",
        Endian::Big => "big",
    }
}

/// What is done about the file that is written.
pub(crate) fn placing_mark(placing: Placing) -> &'static str {
    match (placing.pad, placing.atomic) {
        (false, false) => "",
        (false, true) => " atomic",
        (true, false) => " padded",
        (true, true) => " padded atomic",
    }
}

/// What follows the values where the image is to be decompressed.
fn mark(decompress: bool) -> &'static str {
    if decompress { " decompressed" } else { "" }
}

/// The name of a command, the size of a block and the byte order.
pub(crate) fn shown_options(
    alloc: Global,
    name: &str,
    options: Options,
) -> Result<String, AllocError> {
    let block = options.geometry.block;
    let order = order_name(options.endian);
    format!(in alloc; "{name} {block} {order}")
}

/// The image that is written: the number of blocks, the size of a page, the words between, and the
/// file.
fn shown_target(
    alloc: Global,
    name: &str,
    target: Target<&str>,
    between: &str,
    decompress: bool,
) -> Result<String, AllocError> {
    let weak = if target.weak { "weak " } else { "" };
    let command = shown_options(alloc, name, target.options)?;
    let page = target.page.size();
    let mark = mark(decompress);
    let placing = placing_mark(target.placing);
    let Target { blocks, output, .. } = target;
    let flash = format!(in alloc; "{weak}{command} {blocks} {page}")?;
    format!(in alloc; "{flash} {between} {output}{mark}{placing}")
}

fn shown_building(alloc: Global, name: &str, asked: Building<&str>) -> Result<String, AllocError> {
    shown_target(alloc, name, asked.target, asked.listing, false)
}

fn shown_appending(alloc: Global, asked: Appending<&str>) -> Result<String, AllocError> {
    let Appending {
        target,
        decompress,
        force,
        image,
        listing,
    } = asked;
    let between = format!(in alloc; "{image} {listing}")?;
    let name = if force { "forced append" } else { "append" };
    shown_target(alloc, name, target, between.as_str(), decompress)
}

fn shown_scan(alloc: Global, asked: Image<&str>) -> Result<String, AllocError> {
    let Image { options, image } = asked;
    let command = shown_options(alloc, "scan", options)?;
    format!(in alloc; "{command} {image}")
}

fn shown_check(alloc: Global, asked: Check<&str>, decompress: bool) -> Result<String, AllocError> {
    let Check {
        options,
        shape,
        image,
    } = asked;
    let command = shown_options(alloc, "check", options)?;
    let shape = if shape { " shape" } else { "" };
    let mark = mark(decompress);
    format!(in alloc; "{command} {image}{shape}{mark}")
}

fn shown_tree(alloc: Global, asked: TreeListing<&str>) -> Result<String, AllocError> {
    let TreeListing {
        options,
        decompress,
        image,
        path,
    } = asked;
    let command = shown_options(alloc, "ls", options)?;
    let path = path.unwrap_or("all");
    let mark = mark(decompress);
    format!(in alloc; "{command} {image} {path}{mark}")
}

fn shown_content(alloc: Global, asked: FileContent<&str>) -> Result<String, AllocError> {
    let FileContent {
        options,
        decompress,
        strict,
        image,
        path,
    } = asked;
    let name = if strict { "strict cat" } else { "cat" };
    let command = shown_options(alloc, name, options)?;
    let mark = mark(decompress);
    format!(in alloc; "{command} {image} {path}{mark}")
}

fn shown_examination(alloc: Global, asked: Examination<&str>) -> Result<String, AllocError> {
    let Examination {
        options,
        decompress,
        image,
    } = asked;
    let command = shown_options(alloc, "damage", options)?;
    let mark = mark(decompress);
    format!(in alloc; "{command} {image}{mark}")
}

/// What is to be told of a stop in the same way; `-` where no image is gone on from.
fn shown_cuts(alloc: Global, asked: Cuts<&str>) -> Result<String, AllocError> {
    let Cuts {
        options,
        blocks,
        page,
        on,
        listing,
    } = asked;
    let block = options.geometry.block;
    let is_big = options.endian == Endian::Big;
    let page = page.size();
    let on = on.unwrap_or("-");
    format!(in alloc; "cuts {block} {is_big} {blocks} {page} {on} {listing}")
}

/// And through compression.
fn shown_cuts_through(alloc: Global, asked: CutsThrough<&str>) -> Result<String, AllocError> {
    let CutsThrough {
        options,
        blocks,
        page,
        compress,
        on,
        listing,
    } = asked;
    let command = shown_options(alloc, "through cuts", options)?;
    let page = page.size();
    let on = on.unwrap_or("-");
    let compressed = if compress { " compressed" } else { "" };
    format!(in alloc; "{command} {blocks} {page} {on} {listing}{compressed}")
}

fn shown_comparison(alloc: Global, asked: Comparison<&str>) -> Result<String, AllocError> {
    let Comparison {
        options,
        decompress,
        times,
        first,
        second,
    } = asked;
    let block = options.geometry.block;
    let is_big = options.endian == Endian::Big;
    let mark = mark(decompress);
    format!(in alloc; "diff {block} {is_big} {times} {first} {second}{mark}")
}

fn shown_extraction(alloc: Global, asked: Extraction<&str>) -> Result<String, AllocError> {
    let Extraction {
        options,
        decompress,
        deleted,
        owners,
        quiet,
        image,
        folder,
        path,
    } = asked;
    let block = options.geometry.block;
    let is_big = options.endian == Endian::Big;
    let mark = mark(decompress);
    let flags = format!(in alloc; "{is_big} {owners} {quiet}")?;
    let path = path.unwrap_or("");
    let which = if deleted { " deleted" } else { "" };
    format!(in alloc; "extract {block} {flags} {image} {folder}{path}{mark}{which}")
}

fn shown_listing(alloc: Global, asked: FolderListing<&str>) -> Result<String, AllocError> {
    let FolderListing {
        owner,
        time,
        quiet,
        folder,
    } = asked;
    let Owner { uid, gid } = owner.unwrap_or(Owner { uid: 1, gid: 1 });
    let time = time.unwrap_or(1);
    format!(in alloc; "listing {uid} {gid} {time} {quiet} {folder}")
}

/// A copy of an image, by the name of the command that makes it.
fn shown_copy(alloc: Global, name: &str, asked: Conversion<&str>) -> Result<String, AllocError> {
    let Conversion {
        options,
        force,
        placing,
        image,
        output,
    } = asked;
    let command = shown_options(alloc, name, options)?;
    let force = if force { " forced" } else { "" };
    let placing = placing_mark(placing);
    format!(in alloc; "{command} {image} {output}{force}{placing}")
}

/// The same with the number of blocks; `-` where it is not given.
fn shown_compaction(
    alloc: Global,
    name: &str,
    asked: Compaction<&str>,
) -> Result<String, AllocError> {
    let copy = shown_copy(alloc, name, asked.conversion)?;
    match asked.blocks {
        Some(blocks) => format!(in alloc; "{copy} {blocks}"),
        None => format!(in alloc; "{copy} -"),
    }
}

/// A command as its name, the size of a block, the byte order, its other values in the order of the
/// command's help, and its marks.
pub(crate) fn shown(alloc: Global, command: Command<&str>) -> Result<String, AllocError> {
    match command {
        Command::Scan(asked) => shown_scan(alloc, asked),
        Command::Check(asked) => shown_check(alloc, asked, false),
        Command::CheckThrough(asked) => shown_check(alloc, asked, true),
        Command::List(asked) => shown_tree(alloc, asked),
        Command::Cat(asked) => shown_content(alloc, asked),
        Command::CatInode(asked) => shown_inode(alloc, asked),
        Command::Info { image } => format!(in alloc; "info {image}"),
        Command::Diff(asked) => shown_comparison(alloc, asked),
        Command::Damage(asked) => shown_examination(alloc, asked),
        Command::Map(asked) => shown_mapping(alloc, asked),
        Command::History(asked) => shown_history(alloc, asked),
        Command::Build(asked) => shown_building(alloc, "build", asked),
        Command::BuildCompressed(asked) => shown_building(alloc, "compressed build", asked),
        Command::Append(asked) => shown_appending(alloc, asked),
        Command::Update(asked) => shown_updating(alloc, asked),
        Command::Cuts(asked) => shown_cuts(alloc, asked),
        Command::CutsThrough(asked) => shown_cuts_through(alloc, asked),
        Command::CutsUpdate(asked) => shown_update_cuts(alloc, asked),
        Command::Decompress(asked) => shown_copy(alloc, "decompress", asked),
        Command::Apart(asked) => shown_copy(alloc, "apart", asked),
        Command::Compress(asked) => shown_copy(alloc, "compress", asked),
        Command::Compact(asked) => shown_compaction(alloc, "compact", asked),
        Command::CompactApart(asked) => shown_compaction(alloc, "compact apart", asked),
        Command::Extract(asked) => shown_extraction(alloc, asked),
        Command::Listing(asked) => shown_listing(alloc, asked),
        Command::Pack(asked) => shown_packing(alloc, "pack", asked),
        Command::PackCompressed(asked) => shown_packing(alloc, "compressed pack", asked),
        Command::Verify(asked) => shown_verification(alloc, asked),
    }
}

/// A command, and whether its options are found.
fn shown_request(alloc: Global, request: Request<&str>) -> Result<String, AllocError> {
    let command = shown(alloc, request.command)?;
    if request.auto {
        format!(in alloc; "auto {command}")
    } else {
        Ok(command)
    }
}

/// What the words ask for, or `help` or `wrong` and the text that answers them.
fn answer(alloc: Global, args: &[&str]) -> Result<String, AllocError> {
    match asked(alloc, args) {
        Ok(request) => shown_request(alloc, request),
        Err(RequestFault::Help { text }) => format!(in alloc; "help {text}"),
        Err(RequestFault::Usage { text }) => format!(in alloc; "wrong {text}"),
        Err(RequestFault::OutOfMemory) => String::from_str(alloc, "no memory"),
    }
}

pub fn answer_to(alloc: Global, line: &str) -> Result<String, AllocError> {
    let args: Vec<&str> = line.split_whitespace().collect(alloc)?;
    answer(alloc, args.as_slice())
}

/// The text begins and goes on so, and one line feed ends it, and only one.
pub(crate) fn is_text(text: &str, start: &str, parts: [&str; 2]) -> bool {
    text.starts_with(start)
        && text.contains(parts[0])
        && text.contains(parts[1])
        && text.ends_with("\n")
        && !text.ends_with("\n\n")
}

/// The text of a wrong command line, with this part, and the way to help.
pub(crate) fn is_wrong(text: &str, part: &str) -> bool {
    is_text(text, "wrong error: ", [part, "--help"])
}

/// Lines that ask to read, and what they ask for.
const READING: [(&str, &str); 24] = [
    ("t check --scan a.img", "scan 65536 little a.img"),
    ("t check a.img", "check 65536 little a.img"),
    ("t check --shape a.img", "check 65536 little a.img shape"),
    ("t check --shape --scan a.img", "scan 65536 little a.img"),
    ("t check a.img --scan", "scan 65536 little a.img"),
    (
        "t check --scan --block 4096 a.img",
        "scan 4096 little a.img",
    ),
    ("t check --scan --block=0 a.img", "scan 0 little a.img"),
    (
        "t check --scan --block 4294967295 a.img",
        "scan 4294967295 little a.img",
    ),
    ("t check --endian big --scan a.img", "scan 65536 big a.img"),
    (
        "t check --endian=little --block 08192 --scan a.img",
        "scan 8192 little a.img",
    ),
    ("t check --scan -- a.img", "scan 65536 little a.img"),
    ("t check a.img", "check 65536 little a.img"),
    ("t check --block 0065536 a.img", "check 65536 little a.img"),
    (
        "t ls a.img --block 8192 --endian=big",
        "ls 8192 big a.img all",
    ),
    ("t ls a.img --block 8192 /b", "ls 8192 little a.img /b"),
    (
        "t cat --endian big --block=4096 a.img /b",
        "cat 4096 big a.img /b",
    ),
    ("t info a.img", "info a.img"),
    ("t info -- --block", "info --block"),
    ("t diff a.img b.img", "diff 65536 false false a.img b.img"),
    ("t damage --block 8192 a.img", "damage 8192 little a.img"),
    ("t damage a.img --endian=big", "damage 65536 big a.img"),
    (
        "t diff b.img --times --block 8192 --endian=big a.img",
        "diff 8192 true true b.img a.img",
    ),
    (
        "t diff a.img --decompress b.img",
        "diff 65536 false false a.img b.img decompressed",
    ),
    (
        "t damage --decompress a.img",
        "damage 65536 little a.img decompressed",
    ),
];

fn reading() -> &'static [(&'static str, &'static str)] {
    &READING
}

#[test]
fn args_that_ask_for_something(rt: HostRuntime) -> Result<(), Fail> {
    for &(line, wanted) in reading() {
        let answer = answer_to(rt.alloc(), line)?;
        equal_at(&rt, answer.as_str(), wanted, line);
    }
    Ok(())
}

/// Lines that ask to write, and what they ask for.
const WRITING: [(&str, &str); 16] = [
    ("t cuts --blocks 8 a.txt", "cuts 65536 false 8 4096 - a.txt"),
    (
        "t cuts a.txt --on b.img --page=8192 --endian big --block 8192 --blocks=7",
        "cuts 8192 true 7 8192 b.img a.txt",
    ),
    (
        "t build --blocks 8 a.txt b.img",
        "build 65536 little 8 4096 a.txt b.img",
    ),
    (
        "t build a.txt --blocks=8 b.img",
        "build 65536 little 8 4096 a.txt b.img",
    ),
    (
        "t build a.txt b.img --blocks 0",
        "build 65536 little 0 4096 a.txt b.img",
    ),
    (
        "t build --endian big --blocks 4294967295 --block 8192 a.txt b.img",
        "build 8192 big 4294967295 4096 a.txt b.img",
    ),
    (
        "t build a.txt --endian=big b.img --block=0 --blocks=00012",
        "build 0 big 12 4096 a.txt b.img",
    ),
    (
        "t build --blocks 3 -- --block --blocks",
        "build 65536 little 3 4096 --block --blocks",
    ),
    (
        "t build --blocks 8 --page 16384 a.txt b.img",
        "build 65536 little 8 16384 a.txt b.img",
    ),
    (
        "t append a.img b.txt c.img --page=8192 --blocks 8",
        "append 65536 little 8 8192 a.img b.txt c.img",
    ),
    (
        "t append --blocks 8 a.img b.txt c.img",
        "append 65536 little 8 4096 a.img b.txt c.img",
    ),
    (
        "t append a.img b.txt c.img --blocks=8",
        "append 65536 little 8 4096 a.img b.txt c.img",
    ),
    (
        "t append a.img --blocks 8 b.txt --block 4096 c.img --endian big",
        "append 4096 big 8 4096 a.img b.txt c.img",
    ),
    (
        "t append --block=131072 --blocks=4294967295 a.img b.txt a.img",
        "append 131072 little 4294967295 4096 a.img b.txt a.img",
    ),
    (
        "t build --blocks 8 --weak a.txt b.img",
        "weak build 65536 little 8 4096 a.txt b.img",
    ),
    (
        "t append --weak a.img b.txt c.img --page=8192 --blocks 8",
        "weak append 65536 little 8 8192 a.img b.txt c.img",
    ),
];

fn writing() -> &'static [(&'static str, &'static str)] {
    &WRITING
}

#[test]
fn args_that_ask_to_write(rt: HostRuntime) -> Result<(), Fail> {
    for &(line, wanted) in writing() {
        let answer = answer_to(rt.alloc(), line)?;
        equal_at(&rt, answer.as_str(), wanted, line);
    }
    Ok(())
}

/// Lines that ask for nothing, and a part of the text that says why.
const WRONG: [(&str, &str); 38] = [
    ("", "requires a subcommand"),
    ("t", "requires a subcommand"),
    ("t paint", "unrecognized subcommand 'paint'"),
    ("t ls", "<IMAGE>"),
    ("t ls a.img /a /b", "'/b'"),
    ("t ls --scan a.img", "--scan"),
    ("t ls --shape a.img", "--shape"),
    ("t ls --block=many a.img", "'many' for '--block <N>'"),
    ("t ls a.img --endian=", "'' for '--endian <ORDER>'"),
    ("t check", "<IMAGE>"),
    ("t info", "<IMAGE>"),
    ("t info --endian big a.img", "--endian"),
    ("t info a.img b.img", "'b.img'"),
    ("t damage", "<IMAGE>"),
    ("t damage a.img b.img", "'b.img'"),
    ("t diff", "<A>"),
    ("t diff a.img", "<B>"),
    ("t diff a.img b.img c.img", "'c.img'"),
    ("t diff --block=x a.img b.img", "'x' for '--block <N>'"),
    ("t cat", "<IMAGE>"),
    ("t cat a.img", "<PATH>"),
    ("t cat --scan a.img /a", "--scan"),
    ("t cat a.img /a /b", "'/b'"),
    ("t check --scan", "<IMAGE>"),
    ("t check --scan a b", "'b'"),
    ("t check --scan --scan a", "--scan"),
    ("t check --version a", "--version"),
    ("t check --scan --blocks 2 a", "--blocks"),
    ("t check --scan a --block", "--block <N>"),
    ("t check --scan --block= a", "'' for '--block <N>'"),
    ("t check --scan --block=x a", "'x' for '--block <N>'"),
    (
        "t check --scan --block=+4096 a",
        "'+4096' for '--block <N>'",
    ),
    (
        "t check --scan --block=4294967296 a",
        "'4294967296' for '--block <N>'",
    ),
    (
        "t check --scan --block=99999999999 a",
        "'99999999999' for '--block <N>'",
    ),
    (
        "t check --scan --block=18446744073709551616 a",
        "'18446744073709551616' for '--block <N>'",
    ),
    (
        "t check --scan --endian=middle a",
        "'middle' for '--endian <ORDER>'",
    ),
    (
        "t check --scan --endian=BIG a",
        "'BIG' for '--endian <ORDER>'",
    ),
    (
        "t check --scan --endian=bigger a",
        "'bigger' for '--endian <ORDER>'",
    ),
];

fn wrong() -> &'static [(&'static str, &'static str)] {
    &WRONG
}

#[test]
fn args_that_are_wrong(rt: HostRuntime) -> Result<(), Fail> {
    for &(line, part) in wrong() {
        let answer = answer_to(rt.alloc(), line)?;
        expect_at(&rt, is_wrong(answer.as_str(), part), line);
    }
    let answer = answer(rt.alloc(), &["t", "ls", "--block=1 ", "a"])?;
    expect(&rt, is_wrong(answer.as_str(), "'1 ' for '--block <N>'"));
    Ok(())
}

/// Those with the words of writing.
const WRONG_TO_WRITE: [(&str, &str); 43] = [
    ("t cuts --weak --blocks 8 a", "--weak"),
    ("t compress --weak a b", "--weak"),
    ("t build --weak=yes --blocks 8 a b", "--weak"),
    ("t cuts a", "--blocks <N>"),
    ("t cuts --blocks 8 a b", "'b'"),
    ("t cuts --blocks 8 a --on", "--on <IMAGE>"),
    ("t build", "--blocks <N>"),
    ("t build a b", "--blocks <N>"),
    ("t build --block 8192 a b", "--blocks <N>"),
    ("t build --blocks 8", "<LISTING>"),
    ("t build --blocks 8 a", "<OUT>"),
    ("t build --blocks 8 a b c", "'c'"),
    ("t build --blocks 8 --blocks 8 a b", "--blocks <N>"),
    ("t build a b --blocks", "--blocks <N>"),
    ("t build --blocks= a b", "'' for '--blocks <N>'"),
    ("t build --blocks x a b", "'x' for '--blocks <N>'"),
    ("t build --blocks=+8 a b", "'+8' for '--blocks <N>'"),
    ("t build --blocks=8k a b", "'8k' for '--blocks <N>'"),
    ("t build --blocks=0x8 a b", "'0x8' for '--blocks <N>'"),
    (
        "t build --blocks=4294967296 a b",
        "'4294967296' for '--blocks <N>'",
    ),
    (
        "t build --blocks=18446744073709551624 a b",
        "'18446744073709551624' for '--blocks <N>'",
    ),
    ("t build --blocks 8 --block=x a b", "'x' for '--block <N>'"),
    ("t build --blocks=x --block=y a b", "'y' for '--block <N>'"),
    (
        "t build --blocks=x --endian=middle a b",
        "'middle' for '--endian <ORDER>'",
    ),
    ("t build --scan --blocks 8 a b", "--scan"),
    ("t ls --page 4096 a", "--page"),
    ("t build --page --blocks 8 a b", "--page <N>"),
    (
        "t build --page 4095 --blocks 8 a b",
        "'4095' for '--page <N>'",
    ),
    (
        "t build --blocks 8 --page=04096 a b",
        "'04096' for '--page <N>'",
    ),
    (
        "t append --blocks 8 --page 32768 a b c",
        "'32768' for '--page <N>'",
    ),
    ("t build --page 1 --blocks x a b", "'x' for '--blocks <N>'"),
    ("t append", "--blocks <N>"),
    ("t append a b c", "--blocks <N>"),
    ("t append --blocks 8", "<IMAGE>"),
    ("t append --blocks 8 a", "<LISTING>"),
    ("t append --blocks 8 a b", "<OUT>"),
    ("t append --blocks 8 a b c d", "'d'"),
    ("t append --blocks 8 a b c --blocks 9", "--blocks <N>"),
    ("t append --blocks=x a b c", "'x' for '--blocks <N>'"),
    (
        "t append --blocks 8 --endian=BIG a b c",
        "'BIG' for '--endian <ORDER>'",
    ),
    ("t append --version --blocks 8 a b c", "--version"),
    ("t ls --blocks 8 a", "--blocks"),
    ("t cat --blocks=8 a /b", "--blocks"),
];

fn wrong_to_write() -> &'static [(&'static str, &'static str)] {
    &WRONG_TO_WRITE
}

#[test]
fn args_that_are_wrong_to_write(rt: HostRuntime) -> Result<(), Fail> {
    for &(line, part) in wrong_to_write() {
        let answer = answer_to(rt.alloc(), line)?;
        expect_at(&rt, is_wrong(answer.as_str(), part), line);
    }
    let answer = answer(rt.alloc(), &["t", "build", "--blocks=", "a", "b"])?;
    equal(
        &rt,
        answer.as_str(),
        "wrong error: invalid value '' for '--blocks <N>': wanted a number of blocks in decimal \
         digits, below 4294967296\n\n\
         For more information, try 'jffs2_image build --help'.\n",
    );
    Ok(())
}

/// Lines that ask for help, and a part of it.
const HELP: [(&str, &str); 24] = [
    ("t --help", "Usage: t <COMMAND>"),
    ("t -h", "Usage: t <COMMAND>"),
    ("t help", "Usage: t <COMMAND>"),
    ("t --help", "-V, --version"),
    ("t --help", "The manual page jffs2_image-errors(7)"),
    ("t check --help", "Usage: t check [OPTIONS] <IMAGE>"),
    ("t check -h", "Usage: t check [OPTIONS] <IMAGE>"),
    ("t help check", "Usage: t check [OPTIONS] <IMAGE>"),
    ("t ls --help", "Usage: t ls [OPTIONS] <IMAGE>"),
    ("t help ls", "KIND MODE UID GID SIZE MTIME INO PATH"),
    ("t info --help", "Usage: t info [OPTIONS] <IMAGE>"),
    ("t diff --help", "Usage: t diff [OPTIONS] <A> <B>"),
    ("t damage --help", "Usage: t damage [OPTIONS] <IMAGE>"),
    ("t help damage", "'hides nothing' means that the"),
    ("t help diff", "only the bytes differ, from this offset on"),
    ("t cat --help", "Usage: t cat [OPTIONS] <IMAGE> [PATH]"),
    (
        "t build --help",
        "Usage: t build [OPTIONS] --blocks <N> <LISTING> [OUT]",
    ),
    ("t build -h", "Blocks of the flash, 268435456 bytes at most"),
    ("t help build", "write PATH OFFSET HEX"),
    ("t help build", "accepted A nodes N bytes B"),
    (
        "t append --help",
        "Usage: t append [OPTIONS] --blocks <N> <IMAGE> <LISTING> [OUT]",
    ),
    ("t help append", "IMAGE and OUT may be the same file"),
    ("t --help", "jffs2_image build --blocks 64"),
    ("t --help", "session that writes, P the program"),
];

fn help() -> &'static [(&'static str, &'static str)] {
    &HELP
}

#[test]
fn args_that_ask_for_help(rt: HostRuntime) -> Result<(), Fail> {
    for &(line, part) in help() {
        let answer = answer_to(rt.alloc(), line)?;
        expect_at(
            &rt,
            is_text(answer.as_str(), "help ", [part, "Exit status:"]),
            line,
        );
    }
    Ok(())
}

#[test]
fn args_that_ask_for_the_version(rt: HostRuntime) -> Result<(), Fail> {
    for line in ["t --version", "t -V", "t --version ls"] {
        let answer = answer_to(rt.alloc(), line)?;
        let first = "help jffs2_image 0.1.0\nproved by the Rattle kit's logic ";
        let last = "; PROVED.txt of a package names the commit\n";
        expect_at(&rt, is_text(answer.as_str(), first, [last, last]), line);
    }
    Ok(())
}

#[test]
fn statuses(rt: HostRuntime) {
    for (outcome, wanted) in [
        (Outcome::Done, 0),
        (Outcome::Fault, 1),
        (Outcome::Usage, 2),
        (Outcome::Found, 3),
    ] {
        equal(&rt, status(outcome), wanted);
    }
}
