//! For the benchmarks and for tests/peers/packing.py: compresses a file piece by piece.
//!
//! `bench_deflate FILE PIECE ROUNDS OUT` compresses each piece of so many bytes, so many times
//! over, and writes each stream behind its length of four bytes, least first. A piece that has no
//! stream has a length of 0. It prints how many bytes the streams have.
#![tactic(auto)]

use anyhow::{Context, Result};
use jpack::{Packer, compress};
use std::alloc::Global;
use std::rt::{Env, Files};
use std::{env, fs};

/// Compresses each piece, and answers how many bytes the streams have.
fn compress_all(
    alloc: Global,
    bytes: &[u8],
    piece: usize,
    packer: &mut Packer,
    out: &mut Vec<u8>,
) -> Result<u64> {
    let mut total = 0u64;
    out.clear();
    for content in bytes.chunks(piece.max(1)) {
        let answer = compress(alloc, content, packer).ok().context("no memory")?;
        let stream = answer.unwrap_or(&[]);
        let length = u32::try_from(stream.len()).ok().context("a long stream")?;
        out.extend_from_slice(&length.to_le_bytes())?;
        out.extend_from_slice(stream)?;
        total = total.wrapping_add(u64::from(length));
    }
    Ok(total)
}

fn run<R: Files + Env + Print + AllocGlobal>(rt: &R) -> Result<()> {
    let words: Vec<String> = env::args(rt)?.collect(rt.alloc())?;
    let bytes = fs::read(rt, words.get(1).context("no file")?.as_str())?;
    let piece: usize = words.get(2).context("no piece")?.parse()?;
    let rounds: u32 = words.get(3).context("no rounds")?.parse()?;
    let mut packer = Packer::new(rt.alloc()).ok().context("no memory")?;
    let mut out = Vec::new(rt.alloc());
    let mut total = 0;
    for _ in 0..rounds {
        total = compress_all(rt.alloc(), &bytes, piece, &mut packer, &mut out)?;
    }
    let file = words.get(4).context("no output")?;
    fs::write(rt, file.as_str(), out.as_slice())?;
    println!(rt; "{total}")?;
    Ok(())
}

fn main(rt: HostRuntime) -> Result<()> {
    run(&rt)
}
