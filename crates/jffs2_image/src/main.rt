//! Reads and writes flash images of JFFS2: the program `jffs2_image`.
//!
//! `jcommand` reads the command line, and the crates of the commands run what it asks for, on the
//! `SystemHost` of `jsystem`. `program` joins the two: `specs/Running.antt` says what a run does.
#![tactic(auto)]

ghost use Rattle.std.specs.Prelude.{◌≡◌, IfOk, map, string_bytes};
ghost use Rattle.std.specs.Vec.Iter.{into_iter_items};

pub mod commands;
pub mod laws;
mod placed;
pub mod program;
mod words;

use jcommand::{Outcome, RequestFault, status};
use jedge::host::Host;
use jsystem::host::SystemHost;
use program::run;
use std::alloc::{AllocError, Global};
use std::env::Args;
use std::io::{Error, ErrorKind};
use std::process::ExitCode;
use std::rt::{Env, Files};
use std::{env, fs, io};
use words::{answer_refused, say_usage};

/// The arguments of the command line. Those that are not UTF-8 are `InvalidData`.
fn args_of<R: Env + AllocGlobal>(rt: &R) -> io::Result<Vec<String>> {
    Ok(collected(rt.alloc(), env::args(rt)?)?)
}

/// All arguments, in their order.
fn collected(alloc: Global, args: Args) -> Result<Vec<String>, AllocError>
    ensures { IfOk result (λ all. all.items ≡ into_iter_items args) }
{
    let mut all = Vec::new(alloc);
    for arg in args {
        all.push(arg)?;
    }
    Ok(all)
}

/// The texts of all arguments, in their order.
fn texts_of(alloc: Global, args: &[String]) -> Result<Vec<&str>, AllocError>
    ensures { IfOk result
        (λ texts. map (λ text. text.now) texts.items ≡ map string_bytes args.now) }
{
    let mut texts = Vec::new(alloc);
    for word in args {
        texts.push(word.as_str())?;
    }
    Ok(texts)
}

/// Runs the program on its arguments.
fn run_on(host: &mut SystemHost<'_>, args: &[String]) -> Outcome {
    match texts_of(host.alloc(), args) {
        Ok(texts) => run(host, texts.as_slice()),
        Err(_) => answer_refused(host, RequestFault::OutOfMemory),
    }
}

/// Says why there are no arguments.
fn answer_unread(host: &mut SystemHost<'_>, error: &Error) -> Outcome {
    match error.kind() {
        ErrorKind::InvalidData => say_usage(host, "error: the command line is not UTF-8\n"),
        _ => answer_refused(host, RequestFault::OutOfMemory),
    }
}

/// A file that can't be written. It takes the lowest number that is free, which may be that of a
/// standard stream that is closed: then no file that is opened later gets what is told on it.
fn unwritable<R: Files>(rt: &R) -> Option<R::File> {
    fs::open(rt, "/dev/null").ok()
}

fn main(rt: HostRuntime) -> ExitCode {
    let _streams = (unwritable(&rt), unwritable(&rt), unwritable(&rt));
    let mut host = SystemHost::new(&rt);
    let outcome = match args_of(&rt) {
        Ok(args) => run_on(&mut host, args.as_slice()),
        Err(error) => answer_unread(&mut host, &error),
    };
    ExitCode::from(status(outcome))
}
