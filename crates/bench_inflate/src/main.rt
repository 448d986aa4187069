//! For the benchmarks and for tests/peers/compression.py: decompresses the streams of a file.
//!
//! `bench_inflate FILE` compares each with what a peer made of it, and prints for each method how
//! many streams were accepted and how many refused, and a line for each of another answer.
//! `bench_inflate FILE ROUNDS` only decompresses them, so many times over.
//!
//! A stream is the number of its method, 1 where the peer accepts it and else 0, the length that is
//! asked for and that of its data, four bytes each, least first, the data, and where the peer
//! accepts them the content.
#![tactic(auto)]

ghost use Rattle.std.specs.Prelude.{◌<◌};

use flashbase::{FromReader, load};
use jcompr::{DataFault, Method, decompress};
use std::alloc::{AllocError, Global};
use std::process::ExitCode;
use std::{env, fs};

/// The greatest file, in bytes.
const LIMIT: usize = 1_073_741_824;

#[derive(Drop)]
struct Stream<'a> {
    method: Method,
    size: usize,
    data: &'a [u8],
    content: Option<&'a [u8]>,
}

#[derive(Clone, Copy)]
enum Answer {
    Accepted,
    Refused,
    Other,
}

fn next_number(bytes: &[u8]) -> Option<(usize, &[u8])> {
    let (number, rest) = bytes.split_first_chunk::<4>()?;
    Some((u32::from_le_bytes(*number) as usize, rest))
}

/// The next stream, and what is behind it.
fn next_stream(bytes: &[u8]) -> Option<(Stream<'_>, &[u8])> {
    let (number, rest) = bytes.split_first()?;
    let (accepted, rest) = rest.split_first()?;
    let (size, rest) = next_number(rest)?;
    let (count, rest) = next_number(rest)?;
    let (data, rest) = rest.split_at_checked(count)?;
    let method = Method::of(*number)?;
    if *accepted == 0 {
        let content = None;
        return Some((
            Stream {
                method,
                size,
                data,
                content,
            },
            rest,
        ));
    }
    let (content, rest) = rest.split_at_checked(size)?;
    let content = Some(content);
    Some((
        Stream {
            method,
            size,
            data,
            content,
        },
        rest,
    ))
}

/// What comes of a stream, beside the peer's answer. What stood before it must stay.
fn answer_to(alloc: Global, stream: &Stream<'_>, out: &mut Vec<u8>) -> Result<Answer, AllocError> {
    out.clear();
    out.push(0x2A)?;
    let done = decompress(alloc, stream.method, stream.data, stream.size, out);
    let Some((0x2A, content)) = out.split_first() else {
        return Ok(Answer::Other);
    };
    Ok(match (done, stream.content) {
        (Ok(()), Some(wanted)) if content == wanted => Answer::Accepted,
        (Err(DataFault::Wrong), None) if content.is_empty() => Answer::Refused,
        (Err(DataFault::OutOfMemory), _) => return Err(AllocError),
        _ => Answer::Other,
    })
}

/// Decompresses each stream, and adds up how many bytes they have.
fn decompress_all(alloc: Global, bytes: &[u8], out: &mut Vec<u8>) -> u64 {
    let mut sum = 0u64;
    let mut left = bytes;
    for _ in 0..u64::MAX {
        let Some((stream, rest)) = next_stream(left) else {
            break;
        };
        out.clear();
        if decompress(alloc, stream.method, stream.data, stream.size, out).is_ok() {
            sum = sum.wrapping_add(out.len() as u64);
        }
        left = rest;
    }
    sum
}

/// Where the answer to a stream of a method is counted.
fn place_of(method: Method, answer: Answer) -> usize
    ensures { result < 12 }
{
    match (method, answer) {
        (Method::Rtime, Answer::Accepted) => 0,
        (Method::Rtime, Answer::Refused) => 1,
        (Method::Rtime, Answer::Other) => 2,
        (Method::Zlib, Answer::Accepted) => 3,
        (Method::Zlib, Answer::Refused) => 4,
        (Method::Zlib, Answer::Other) => 5,
        (Method::Lzo, Answer::Accepted) => 6,
        (Method::Lzo, Answer::Refused) => 7,
        (Method::Lzo, Answer::Other) => 8,
        (Method::Lzma, Answer::Accepted) => 9,
        (Method::Lzma, Answer::Refused) => 10,
        (Method::Lzma, Answer::Other) => 11,
    }
}

/// Compares each stream's answer, and prints the place of each other one, and the counts.
fn compare_all(rt: &(impl Print + AllocGlobal), bytes: &[u8]) -> Option<()> {
    let mut out = Vec::new(rt.alloc());
    let mut counts = [0u64; 12];
    let mut left = bytes;
    for _ in 0..u64::MAX {
        let Some((stream, rest)) = next_stream(left) else {
            break;
        };
        let answer = answer_to(rt.alloc(), &stream, &mut out).ok()?;
        if matches!(answer, Answer::Other) {
            let place = bytes.len().wrapping_sub(left.len());
            println!(rt; "other at {place}").ok()?;
        }
        let place = place_of(stream.method, answer);
        counts[place] = counts[place].wrapping_add(1);
        left = rest;
    }
    let [a, b, c, d, e, f, g, h, i, j, k, l] = counts;
    println!(rt; "rtime accepted {a} refused {b} other {c}").ok()?;
    println!(rt; "zlib accepted {d} refused {e} other {f}").ok()?;
    println!(rt; "lzo accepted {g} refused {h} other {i}").ok()?;
    println!(rt; "lzma accepted {j} refused {k} other {l}").ok()
}

fn run<R: std::rt::Files + std::rt::Env + Print + AllocGlobal>(rt: &R) -> Option<()> {
    let words: Vec<String> = env::args(rt).ok()?.collect(rt.alloc()).ok()?;
    let mut source = FromReader::new(fs::open(rt, words.get(1)?.as_str()).ok()?);
    let bytes = load(rt.alloc(), &mut source, LIMIT).ok()?;
    let Some(rounds) = words.get(2) else {
        return compare_all(rt, &bytes);
    };
    let rounds: u32 = rounds.parse().ok()?;
    let mut out = Vec::new(rt.alloc());
    let mut sum = 0u64;
    for _ in 0..rounds {
        sum = sum.wrapping_add(decompress_all(rt.alloc(), &bytes, &mut out));
    }
    println!(rt; "{sum}").ok()
}

fn main(rt: HostRuntime) -> ExitCode {
    match run(&rt) {
        Some(()) => ExitCode::SUCCESS,
        None => ExitCode::FAILURE,
    }
}
