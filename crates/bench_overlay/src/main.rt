//! How long laying pieces takes, for orders of arrival that differ: n and 2n pieces of each.
#![tactic(auto)]

ghost use Rattle.std.specs.Prelude.{◌≡◌, ℕ, ◌+◌, ◌<◌, ◌^◌, All, IfOk};
ghost use Rattle.jfrag.specs.Pieces.{end_of};

use jfrag::{Body, FragOverlay, Overlay, Piece, overlay};
use std::alloc::{AllocError, Global};
use std::rt::Clock;
use std::time::Instant;
use std::{env, io};

/// What differs between the runs.
#[derive(Clone, Copy)]
enum Arrival {
    /// Random places, much overlap, versions rising.
    ByVersion,
    /// Places rising, next to one another, versions rising.
    ByAddress,
    /// Random places, much overlap, versions falling.
    Reverse,
    /// Random places, much overlap, random versions.
    Random,
    /// Half are small and new, then comes a large old one over all of them for each.
    OldOverNew,
}

const ARRIVALS: [(&str, Arrival); 5] = [
    ("by version", Arrival::ByVersion),
    ("by address", Arrival::ByAddress),
    ("reverse", Arrival::Reverse),
    ("random", Arrival::Random),
    ("old over new", Arrival::OldOverNew),
];

/// The i-th of n pieces; `random` is a number at random.
fn piece_of(arrival: Arrival, i: u32, n: u32, random: u32) -> Piece<'static>
    ensures { end_of result < 2 ^ 32 }
{
    let place = random % 1_048_576;
    let (version, offset, count) = match arrival {
        Arrival::ByVersion => (i, place.wrapping_mul(64), 6400),
        Arrival::ByAddress => (i, i.wrapping_mul(64), 64),
        Arrival::Reverse => (u32::MAX - i, place.wrapping_mul(64), 6400),
        Arrival::Random => (random, place.wrapping_mul(64), 6400),
        Arrival::OldOverNew => {
            if i < n / 2 {
                (u32::MAX - i, i.wrapping_mul(64), 32)
            } else {
                (i, 0, n.wrapping_mul(64))
            }
        }
    };
    Piece {
        version,
        offset: offset % 1_073_741_824,
        body: Body::Zero(count % 1_073_741_824),
    }
}

fn pieces_of(alloc: Global, arrival: Arrival, n: u32) -> Result<Vec<Piece<'static>>, AllocError>
    ensures { IfOk result (λ pieces. All (λ piece. end_of piece < 2 ^ 32) pieces.items) }
{
    let mut pieces = Vec::new(alloc);
    let mut state = 12345u64;
    for i in 0..n {
        state = (state % 2_147_483_648 * 1_103_515_245 + 12_345) % 2_147_483_648;
        pieces.push(piece_of(arrival, i, n, (state / 8) as u32))?;
    }
    Ok(pieces)
}

fn overlaid_at_once<'a>(alloc: Global, pieces: &[Piece<'a>]) -> Result<FragOverlay<'a>, AllocError>
    requires { All (λ piece. end_of piece < 2 ^ 32) pieces.now }
{
    overlay(alloc, pieces)
}

fn overlaid_one_by_one(
    alloc: Global,
    arrival: Arrival,
    n: u32,
) -> Result<FragOverlay<'static>, AllocError> {
    let mut overlaid = FragOverlay::new(alloc);
    let mut state = 12345u64;
    for i in 0..n {
        state = (state % 2_147_483_648 * 1_103_515_245 + 12_345) % 2_147_483_648;
        overlaid.add(piece_of(arrival, i, n, (state / 8) as u32))?;
    }
    Ok(overlaid)
}

fn read_all(overlaid: &FragOverlay<'_>, n: u32) {
    let mut out = [0u8; 4096];
    for page in 0..n / 64 {
        overlaid.read_at(u64::from(page) * 4096, &mut out);
    }
}

/// Times n and 2n pieces of each order of arrival, overlaid at once and one by one.
fn measure<R: Print + Clock + AllocGlobal>(rt: &R) -> io::Result<()> {
    for (name, arrival) in ARRIVALS {
        for n in [50_000u32, 100_000, 200_000, 400_000] {
            let pieces = pieces_of(rt.alloc(), arrival, n)?;
            let start = Instant::now(rt)?;
            let overlaid = overlaid_at_once(rt.alloc(), &pieces)?;
            let took = start.elapsed(rt)?;
            let start = Instant::now(rt)?;
            read_all(&overlaid, n);
            let read = start.elapsed(rt)?;
            println!(rt;
                "{name}: n {n} overlay {} ms, {} intervals, reading {} ms",
                took.as_millis(),
                overlaid.pieces(),
                read.as_millis()
            )?;
        }
        for n in [5_000u32, 10_000] {
            let start = Instant::now(rt)?;
            let overlaid = overlaid_one_by_one(rt.alloc(), arrival, n)?;
            let took = start.elapsed(rt)?;
            println!(rt;
                "{name}: n {n} add by add {} ms, {} intervals",
                took.as_millis(),
                overlaid.pieces()
            )?;
        }
    }
    Ok(())
}

/// Prints the intervals alone, where arithmetic says how many there are.
fn count<R: Print + AllocGlobal>(rt: &R) -> io::Result<()> {
    for (name, arrival) in [
        ("by address", Arrival::ByAddress),
        ("old over new", Arrival::OldOverNew),
    ] {
        let pieces = pieces_of(rt.alloc(), arrival, 1000)?;
        let overlaid = overlaid_at_once(rt.alloc(), &pieces)?;
        println!(rt; "{name}: {} intervals", overlaid.pieces())?;
    }
    Ok(())
}

/// With a word, whichever, it counts; without one it measures.
fn main(rt: HostRuntime) -> io::Result<()> {
    let words: Vec<String> = env::args(&rt)?.collect(rt.alloc())?;
    if words.len() > 1 {
        count(&rt)
    } else {
        measure(&rt)
    }
}
