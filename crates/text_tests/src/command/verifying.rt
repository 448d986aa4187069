//! Command lines that ask whether an image holds a folder.

use crate::checks::{equal_at, expect_at};
use crate::command::command_lines::{answer_to, is_text, is_wrong, shown_options};
use crate::command::packing::shown_folder;
use jcommand::Verification;
use std::alloc::{AllocError, Global};
use std::test::Fail;

/// What is to be verified, as the values in the order of the command's help; `-` for one that may
/// be left out and is.
pub(crate) fn shown_verification(
    alloc: Global,
    asked: Verification<&str>,
) -> Result<String, AllocError> {
    let Verification {
        options,
        times,
        owner,
        time,
        quiet,
        image,
        folder,
    } = asked;
    let command = shown_options(alloc, "verify", options)?;
    let folder = shown_folder(alloc, owner, time, folder)?;
    let times = if times { " times" } else { "" };
    let quiet = if quiet { " quiet" } else { "" };
    format!(in alloc; "{command} {image} {folder}{times}{quiet}")
}

/// Lines, and what they ask for.
const ASKED: [(&str, &str); 6] = [
    ("t verify a.img b", "verify 65536 little a.img - - - b"),
    (
        "t verify --times a.img b",
        "verify 65536 little a.img - - - b times",
    ),
    (
        "t verify a.img --owner 0 65535 b --quiet",
        "verify 65536 little a.img 0 65535 - b quiet",
    ),
    (
        "t verify --time=0 a.img b --endian big",
        "verify 65536 big a.img - - 0 b",
    ),
    (
        "t verify --times --quiet --time 9 --owner 7 8 -e 8K -b a.img b",
        "verify 8192 big a.img 7 8 9 b times quiet",
    ),
    (
        "t verify -a --times b a",
        "auto verify 65536 little b - - - a times",
    ),
];

fn asked() -> &'static [(&'static str, &'static str)] {
    &ASKED
}

#[test]
fn args_that_verify(rt: HostRuntime) -> Result<(), Fail> {
    for &(line, wanted) in asked() {
        let answer = answer_to(rt.alloc(), line)?;
        equal_at(&rt, answer.as_str(), wanted, line);
    }
    Ok(())
}

/// Lines that ask for nothing, and a part of the text that says why.
const WRONG: [(&str, &str); 11] = [
    ("t verify", "<IMAGE>"),
    ("t verify a.img", "<DIR>"),
    ("t verify a.img b c", "'c'"),
    ("t verify --decompress a.img b", "--decompress"),
    ("t verify --blocks 8 a.img b", "--blocks"),
    ("t verify --compress a.img b", "--compress"),
    ("t verify --owner 1 a.img b", "<DIR>"),
    ("t verify --owner 1 65536 a.img b", "'65536' for '--owner"),
    ("t verify --time=x a.img b", "'x' for '--time <T>'"),
    (
        "t verify --block=x --time y a.img b",
        "'x' for '--block <N>'",
    ),
    (
        "t verify -a -l a.img b",
        "'--auto' cannot be used with '--little-endian'",
    ),
];

fn wrong() -> &'static [(&'static str, &'static str)] {
    &WRONG
}

#[test]
fn args_that_verify_wrongly(rt: HostRuntime) -> Result<(), Fail> {
    for &(line, part) in wrong() {
        let answer = answer_to(rt.alloc(), line)?;
        expect_at(&rt, is_wrong(answer.as_str(), part), line);
    }
    Ok(())
}

/// Lines that ask for help, and a part of it.
const HELP: [(&str, &str); 4] = [
    ("t verify --help", "Usage: t verify [OPTIONS] <IMAGE> <DIR>"),
    ("t verify -h", "--times"),
    ("t help verify", "only DIR has the path"),
    ("t --help", "jffs2_image verify flash.img tree"),
];

fn help() -> &'static [(&'static str, &'static str)] {
    &HELP
}

#[test]
fn help_on_verifying(rt: HostRuntime) -> Result<(), Fail> {
    for &(line, part) in help() {
        let answer = answer_to(rt.alloc(), line)?;
        expect_at(
            &rt,
            is_text(answer.as_str(), "help ", [part, "Exit status:"]),
            line,
        );
    }
    Ok(())
}
