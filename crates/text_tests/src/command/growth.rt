//! A growth that is refused is told as such.

use crate::checks::equal;
use jcommand::{Command, RequestFault, asked};
use std::alloc::Global;

/// Words, and what they ask for.
const LINES: [(&[&str], &str); 28] = [
    (
        &["t", "verify", "--owner", "1", "2", "a.img", "b"],
        "verify",
    ),
    (
        &["t", "build", "--compress", "a.txt", "b.img", "--blocks=8"],
        "compressed build",
    ),
    (
        &[
            "t",
            "cuts",
            "--blocks=8",
            "--compress",
            "--on",
            "a.img",
            "b",
        ],
        "cuts through",
    ),
    (
        &["t", "compact", "--clashes=higher", "a.img", "b.img"],
        "compact apart",
    ),
    (
        &["t", "pack", "--compress", "a", "b.img"],
        "compressed pack",
    ),
    (&["t", "check", "--scan", "--block=4096", "a.img"], "scan"),
    (&["t", "check", "--endian", "big", "a.img"], "check"),
    (&["t", "check", "--decompress", "a.img"], "through"),
    (&["t", "ls", "a.img"], "ls"),
    (&["t", "cat", "a.img", "/b"], "cat"),
    (
        &["t", "append", "a.img", "b.txt", "c.img", "--blocks=8"],
        "append",
    ),
    (
        &["t", "build", "--weak", "a.txt", "b.img", "--blocks=8"],
        "build",
    ),
    (
        &["t", "update", "--blocks=8", "a.img", "b.txt", "c.img"],
        "update",
    ),
    (&["t", "decompress", "a.img", "b.img"], "decompress"),
    (&["t", "extract", "--owners", "a.img", "b"], "extract"),
    (
        &["t", "listing", "--owner", "1", "2", "--time=3", "a"],
        "listing",
    ),
    (&["t", "info", "a.img"], "info"),
    (&["t", "cuts", "--blocks=8", "--on", "a.img", "b"], "cuts"),
    (
        &["t", "cuts", "--update", "--tail", "--on", "a.img", "b"],
        "cuts of update",
    ),
    (&["t", "compress", "a.img", "b.img"], "compress"),
    (&["t", "compact", "--blocks=8", "a.img", "b.img"], "compact"),
    (&["t", "diff", "--times", "a.img", "b.img"], "diff"),
    (&["t", "damage", "a.img"], "damage"),
    (&["t", "map", "--svg", "a.img"], "map"),
    (
        &["t", "decompress", "--clashes", "higher", "a.img", "b.img"],
        "apart",
    ),
    (
        &["t", "pack", "--owner", "1", "2", "--pad", "a", "b.img"],
        "pack",
    ),
    (&["t", "check", "--help"], "help"),
    (&["t", "check", "--block", "x", "a.img"], "wrong"),
];

fn lines() -> &'static [(&'static [&'static str], &'static str)] {
    &LINES
}

fn name_of(command: &Command<&str>) -> &'static str {
    match command {
        Command::Scan(_) => "scan",
        Command::Check(_) => "check",
        Command::CheckThrough(_) => "through",
        Command::List(_) => "ls",
        Command::Cat(_) => "cat",
        Command::CatInode(_) => "cat of an inode",
        Command::Info { .. } => "info",
        Command::Diff(_) => "diff",
        Command::Damage(_) => "damage",
        Command::Map(_) => "map",
        Command::History(_) => "history",
        Command::Build(_) => "build",
        Command::BuildCompressed(_) => "compressed build",
        Command::Append(_) => "append",
        Command::Update(_) => "update",
        Command::Cuts(_) => "cuts",
        Command::CutsThrough(_) => "cuts through",
        Command::CutsUpdate(_) => "cuts of update",
        Command::Decompress(_) => "decompress",
        Command::Apart(_) => "apart",
        Command::Compress(_) => "compress",
        Command::Compact(_) => "compact",
        Command::CompactApart(_) => "compact apart",
        Command::Extract(_) => "extract",
        Command::Listing(_) => "listing",
        Command::Pack(_) => "pack",
        Command::PackCompressed(_) => "compressed pack",
        Command::Verify(_) => "verify",
    }
}

/// What the words ask for.
fn asked_name(alloc: Global, words: &[&str]) -> &'static str {
    match asked(alloc, words) {
        Ok(request) => name_of(&request.command),
        Err(RequestFault::Help { .. }) => "help",
        Err(RequestFault::Usage { .. }) => "wrong",
        Err(RequestFault::OutOfMemory) => "no memory",
    }
}

/// Passes with each allocation failing in turn too: memory is then blamed, and the same words ask
/// for what they ask for.
#[test]
fn refused_growth_is_want_of_memory(rt: HostRuntime) {
    for &(words, want) in lines() {
        let mut first = asked_name(rt.alloc(), words);
        if first == "no memory" {
            first = asked_name(rt.alloc(), words);
        }
        equal(&rt, first, want);
    }
}
