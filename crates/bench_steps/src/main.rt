//! For the benchmarks: mounts a file as an image of blocks of 65,536 bytes in little order, makes
//! an index of it, and takes operations in its root, each planned and its steps taken.
#![tactic(auto)]

use byteorder::LittleEndian;
use flashbase::{FromReader, load};
use jmount::mount;
use jscan::Geometry;
use jsteps::{Index, Op, Text, advance, plan};
use std::alloc::Global;
use std::process::ExitCode;
use std::rt::{Clock, Env, Files};
use std::time::Instant;
use std::{env, fs};
use test_operations::is_ready;

/// The greatest file, in bytes.
const LIMIT: usize = 268_435_456;

const GEOMETRY: Geometry = Geometry { block: 65536 };

/// Files of the root under new names.
fn creates(alloc: Global, count: u32) -> Option<Vec<Op<'static>>> {
    let mut ops = Vec::with_capacity(alloc, count as usize).ok()?;
    for k in 0..count {
        let path = format!(in alloc; "/new{k}").ok()?;
        ops.push(Op::Create {
            time: k,
            path: Text::new(path.into_bytes()),
            mode: 0o644,
            uid: 0,
            gid: 0,
        })
        .ok()?;
    }
    Some(ops)
}

/// Other names for the files of an image that are `0name0`, `0name1` and so on, one by one and
/// round by round.
fn renames(alloc: Global, count: u32, files: u32) -> Option<Vec<Op<'static>>> {
    let mut ops = Vec::with_capacity(alloc, count as usize).ok()?;
    for k in 0..count {
        let round = k.checked_div(files)?;
        let file = k % files;
        let old = format!(in alloc; "/{round}name{file}").ok()?;
        let new = format!(in alloc; "/{}name{file}", round.checked_add(1)?).ok()?;
        ops.push(Op::Rename {
            time: k,
            old: Text::new(old.into_bytes()),
            new: Text::new(new.into_bytes()),
        })
        .ok()?;
    }
    Some(ops)
}

/// Plans operations one after another, and takes their steps; tells how many steps there are.
fn take(alloc: Global, index: &mut Index, ops: &[Op<'_>]) -> Option<usize> {
    let mut count = 0usize;
    for op in ops {
        let steps = plan(alloc, index, op).ok()?;
        for step in &steps {
            if !is_ready(index, step) {
                return None;
            }
            advance(index, step).ok()?;
        }
        count = count.checked_add(steps.len())?;
    }
    Some(count)
}

/// What is done, as the words say it: FILE, a count of operations, and a count of the image's
/// files. A fourth word, whichever, leaves out the seconds.
#[derive(Drop)]
struct Job {
    file: String,
    count: u32,
    files: u32,
    is_timed: bool,
}

fn job_of(words: &[String]) -> Option<Job> {
    Some(Job {
        file: words.get(1)?.clone().ok()?,
        count: words.get(2)?.as_str().parse().ok()?,
        files: words.get(3)?.as_str().parse().ok()?,
        is_timed: words.len() < 5,
    })
}

/// Prints how long something took, in thousandths of a second.
fn report<R: Clock + Print>(
    rt: &R,
    job: &Job,
    what: &str,
    since: &Instant,
    steps: usize,
) -> Option<()> {
    if job.is_timed {
        let took = since.elapsed(rt).ok()?;
        println!(rt; "{what} {steps} {} ms", took.as_millis()).ok()
    } else {
        println!(rt; "{what} {steps}").ok()
    }
}

fn measure<R: Files + Clock + Print + AllocGlobal>(rt: &R, job: &Job) -> Option<()> {
    let alloc = rt.alloc();
    let mut source = FromReader::new(fs::open(rt, job.file.as_str()).ok()?);
    let image = load(alloc, &mut source, LIMIT).ok()?;
    let mounted = mount::<LittleEndian>(alloc, &image, GEOMETRY).ok()?;
    let start = Instant::now(rt).ok()?;
    let mut index = Index::of(alloc, &mounted).ok()?;
    report(rt, job, "index", &start, 0)?;
    let creates = creates(alloc, job.count)?;
    let start = Instant::now(rt).ok()?;
    let steps = take(alloc, &mut index, &creates)?;
    report(rt, job, "create", &start, steps)?;
    let renames = renames(alloc, job.count, job.files)?;
    let start = Instant::now(rt).ok()?;
    let steps = take(alloc, &mut index, &renames)?;
    report(rt, job, "rename", &start, steps)?;
    println!(rt; "next {} top {}", index.next(), index.top(1)).ok()
}

fn run<R: Files + Clock + Env + Print + AllocGlobal>(rt: &R) -> Option<()> {
    let words: Vec<String> = env::args(rt).ok()?.collect(rt.alloc()).ok()?;
    let job = job_of(&words)?;
    measure(rt, &job)
}

fn main(rt: HostRuntime) -> ExitCode {
    match run(&rt) {
        Some(()) => ExitCode::SUCCESS,
        None => ExitCode::FAILURE,
    }
}
