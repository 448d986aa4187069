//! For the benchmarks: mounts a file as an image of blocks of 65,536 bytes in little order, and
//! prints the next number that is free in it.
#![tactic(auto)]

use byteorder::LittleEndian;
use flashbase::{FromReader, load};
use jmount::mount;
use jscan::Geometry;
use std::process::ExitCode;
use std::{env, fs};

/// The greatest file, in bytes.
const LIMIT: usize = 268_435_456;

const GEOMETRY: Geometry = Geometry { block: 65536 };

/// The next number that is free.
fn next_number<R: std::rt::Files + AllocGlobal>(rt: &R, name: &str) -> Option<u64> {
    let mut source = FromReader::new(fs::open(rt, name).ok()?);
    let image = load(rt.alloc(), &mut source, LIMIT).ok()?;
    let mounted = mount::<LittleEndian>(rt.alloc(), &image, GEOMETRY).ok()?;
    Some(mounted.next())
}

fn run<R: std::rt::Files + std::rt::Env + Print + AllocGlobal>(rt: &R) -> Option<()> {
    let words: Vec<String> = env::args(rt).ok()?.collect(rt.alloc()).ok()?;
    let next = next_number(rt, words.get(1)?.as_str())?;
    println!(rt; "next {next}").ok()
}

fn main(rt: HostRuntime) -> ExitCode {
    match run(&rt) {
        Some(()) => ExitCode::SUCCESS,
        None => ExitCode::FAILURE,
    }
}
