//! For the benchmarks: weak cuts of nodes of 4,164 bytes, and their checksums.
//!
//! `bench_weak WHAT COUNT` takes one of two nodes COUNT times, and prints a sum of what it got.
//! WHAT is `crc`, the checksum of the node; `cut`, its least weak cut; or `worst`, the same of
//! nodes whose node_crc is 0xFFFFFFFF, so that only the checksum of the data shows a cut in it.
#![tactic(auto)]

ghost use Rattle.jnode.specs.Weak.{IsWrittenForm};
ghost use Rattle.jnode.specs.declared.order.Endian.TheVariants.{Little};

use byteorder::LittleEndian;
use flashbase::{Part, crc};
use jnode::{Fill, InodeNode, weak_cut, write_inode};
use std::alloc::Global;
use std::env;
use std::process::ExitCode;

const DATA_LEN: usize = 4096;

/// Versions, and times at which their nodes have the node_crc 0xFFFFFFFF.
const WORST: [(u32, u32); 2] = [(1, 3185780738), (2, 306865608)];

const PLAIN: [(u32, u32); 2] = [(1, 0), (2, 0)];

fn node_of(version: u32, mtime: u32, data: &[u8]) -> InodeNode<'_> {
    InodeNode {
        ino: 2,
        version,
        mode: 0o100644,
        uid: 0,
        gid: 0,
        isize: 4096,
        atime: 0,
        mtime,
        ctime: 0,
        offset: 0,
        dsize: 4096,
        fill: Fill::Data(Part::new(data, 0)),
    }
}

/// Which node is next hangs on what was got, so that no call is left out.
fn checksums(first: &[u8], second: &[u8], count: u32) -> u32 {
    let mut sum: u32 = 0;
    for _ in 0..count {
        let bytes = if sum % 2 == 0 { first } else { second };
        sum = sum.wrapping_add(crc(bytes));
    }
    sum
}

fn weak_cuts(first: &[u8], second: &[u8], count: u32) -> u32
    requires first { IsWrittenForm Little first.now }
    requires second { IsWrittenForm Little second.now }
{
    let mut sum: u32 = 0;
    for _ in 0..count {
        let bytes = if sum % 2 == 0 { first } else { second };
        let cut = weak_cut::<LittleEndian>(bytes).unwrap_or(1);
        sum = sum.wrapping_add((cut % 65536) as u32);
    }
    sum
}

#[derive(Clone, Copy)]
enum Work {
    Checksums,
    WeakCuts,
}

fn work_of(word: &str) -> Option<(Work, [(u32, u32); 2])> {
    match word {
        "crc" => Some((Work::Checksums, PLAIN)),
        "cut" => Some((Work::WeakCuts, PLAIN)),
        "worst" => Some((Work::WeakCuts, WORST)),
        _ => None,
    }
}

fn work_on(work: Work, first: &[u8], second: &[u8], count: u32) -> u32
    requires first { IsWrittenForm Little first.now }
    requires second { IsWrittenForm Little second.now }
{
    match work {
        Work::Checksums => checksums(first, second, count),
        Work::WeakCuts => weak_cuts(first, second, count),
    }
}

fn data_of(alloc: Global) -> Option<Vec<u8>> {
    let mut data = vec![in alloc; 0u8; DATA_LEN].ok()?;
    for (i, byte) in data.iter_mut().enumerate() {
        *byte = (i % 251) as u8;
    }
    Some(data)
}

fn with_nodes(alloc: Global, work: Work, times: [(u32, u32); 2], count: u32) -> Option<u32> {
    let data = data_of(alloc)?;
    let mut first = Vec::new(alloc);
    let mut second = Vec::new(alloc);
    let [a, b] = times;
    match write_inode::<LittleEndian>(&mut first, &node_of(a.0, a.1, &data)) {
        Ok(()) => match write_inode::<LittleEndian>(&mut second, &node_of(b.0, b.1, &data)) {
            Ok(()) => Some(work_on(work, &first, &second, count)),
            Err(_) => None,
        },
        Err(_) => None,
    }
}

fn run<R: std::rt::Env + Print + AllocGlobal>(rt: &R) -> Option<()> {
    let words: Vec<String> = env::args(rt).ok()?.collect(rt.alloc()).ok()?;
    let (work, times) = work_of(words.get(1)?.as_str())?;
    let sum = with_nodes(
        rt.alloc(),
        work,
        times,
        words.get(2)?.as_str().parse().ok()?,
    )?;
    println!(rt; "{sum}").ok()
}

fn main(rt: HostRuntime) -> ExitCode {
    match run(&rt) {
        Some(()) => ExitCode::SUCCESS,
        None => ExitCode::FAILURE,
    }
}
