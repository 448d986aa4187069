//! The baseline of the benchmarks: loads a file, and prints the bare checksum of its bytes.
//!
//! `bench_crc FILE PIECE ROUNDS` takes the checksum on from piece to piece and from round to round,
//! as `bench/crc_tables.c` does, which it is compared with.
#![tactic(auto)]

use flashbase::{FromReader, crc, crc_from, load};
use std::process::ExitCode;
use std::{env, fs};

/// The greatest file, in bytes.
const LIMIT: usize = 268_435_456;

/// The checksum of the bytes, piece after piece, so many times over.
fn checksum_by_pieces(bytes: &[u8], piece: u32, rounds: u32) -> Option<u32> {
    if piece == 0 {
        return None;
    }
    let mut sum = 0;
    for _ in 0..rounds {
        for part in bytes.chunks(piece as usize) {
            sum = crc_from(sum, part);
        }
    }
    Some(sum)
}

fn run<R: std::rt::Files + std::rt::Env + Print + AllocGlobal>(rt: &R) -> Option<()> {
    let words: Vec<String> = env::args(rt).ok()?.collect(rt.alloc()).ok()?;
    let mut source = FromReader::new(fs::open(rt, words.get(1)?.as_str()).ok()?);
    let bytes = load(rt.alloc(), &mut source, LIMIT).ok()?;
    let checksum = match (words.get(2), words.get(3)) {
        (Some(piece), Some(rounds)) => {
            checksum_by_pieces(&bytes, piece.parse().ok()?, rounds.parse().ok()?)?
        }
        _ => crc(&bytes),
    };
    println!(rt; "{checksum:08x}").ok()
}

fn main(rt: HostRuntime) -> ExitCode {
    match run(&rt) {
        Some(()) => ExitCode::SUCCESS,
        None => ExitCode::FAILURE,
    }
}
