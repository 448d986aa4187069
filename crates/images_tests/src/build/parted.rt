//! Files of the host that listings name.

use crate::checks::{equal, expect};
use byteorder::{BigEndian, LittleEndian};
use flashbase::LoadFault;
use jbuild::{HostFiles, operations};
use jlisting::listing;
use jnode::Order;
use jsteps::{DeviceKind, Op};
use std::alloc::Global;
use std::test::Fail;
use test_support::Giver;

#[test]
fn files_that_were_read(rt: HostRuntime) -> Result<(), Fail> {
    let mut parts = HostFiles::new(rt.alloc());
    expect(&rt, !parts.has("f") && !parts.has(""));
    parts.insert("f".to_string(rt.alloc())?, b"old")?;
    expect(
        &rt,
        parts.has("f") && !parts.has("") && !parts.has("fg") && !parts.has("g"),
    );
    parts.insert("g".to_string(rt.alloc())?, b"")?;
    parts.insert("f".to_string(rt.alloc())?, b"new")?;
    expect(&rt, parts.has("f") && parts.has("g") && !parts.has("F"));
    Ok(())
}

/// The listing names one file three times, one that is empty, and one that was not read.
const TEXT: &[u8] = b"time 7\npart /a 0 f\n# f\npart /b 9 f\npart /a 1 g\npart /a 2 h\nremove /a\n\
      file 600 /c \\x66\n";

/// Where a write begins, and its bytes.
type Write = (u32, &'static [u8]);

fn writes() -> &'static [Write] {
    &[(0, b"new"), (9, b"new"), (1, b""), (2, b"")]
}

/// When a write was made, where, and its bytes.
fn written<'a>(op: &'a Op<'_>) -> Option<(u32, u32, &'a [u8])> {
    match op {
        Op::Write {
            time,
            offset,
            bytes,
            ..
        } => Some((*time, *offset, bytes.as_slice())),
        _ => None,
    }
}

/// Whether the first operations are these writes, made at a time.
fn are_written(ops: &[Op<'_>], time: u32, wanted: &[Write]) -> bool {
    if ops.len() < wanted.len() {
        return false;
    }
    let mut same = true;
    for (op, (at, bytes)) in ops.iter().zip(wanted) {
        same = same && written(op) == Some((time, *at, *bytes));
    }
    same
}

/// The operations of a listing, in an order; nothing where it has none.
fn ops_of<'b, E: Order>(
    alloc: Global,
    text: &'static [u8],
    parts: &'b HostFiles,
) -> Option<Vec<Op<'b>>> {
    let lines = listing(alloc, text).ok()?;
    operations::<E>(alloc, lines, parts).ok()
}

/// Adds files, given by their names and bytes.
fn insert(
    alloc: Global,
    parts: &mut HostFiles,
    files: &[(&'static str, &'static [u8])],
) -> Result<(), Fail> {
    for (name, bytes) in files {
        parts.insert(name.to_string(alloc)?, bytes)?;
    }
    Ok(())
}

#[test]
fn operations_have_the_bytes_of_their_files(rt: HostRuntime) -> Result<(), Fail> {
    let mut parts = HostFiles::new(rt.alloc());
    insert(
        rt.alloc(),
        &mut parts,
        &[("f", b"old"), ("f", b"new"), ("g", b"")],
    )?;
    let ops = ops_of::<LittleEndian>(rt.alloc(), TEXT, &parts).ok_or("no operations")?;
    equal(&rt, ops.len(), 6);
    expect(&rt, are_written(&ops, 7, writes()));
    expect(&rt, matches!(ops.get(4), Some(Op::Remove { time: 7, .. })));
    expect(
        &rt,
        matches!(ops.last(), Some(Op::File { bytes, .. }) if bytes.as_slice() == b"new".as_slice()),
    );
    Ok(())
}

/// Lines that write the bytes of files into one.
const READ: &[u8] = b"part /a 0 f\npart /b 1 g\npart /c 2 h\npart /d 3 k\n";

fn found() -> &'static [Write] {
    &[(0, b"old"), (1, b"abcd"), (2, b""), (3, b"")]
}

/// A file's name, the call at which its source fails, the greatest length, and the answer.
fn sources() -> &'static [(&'static str, usize, usize, Result<(), LoadFault>)] {
    &[
        ("f", 2, 9, Err(LoadFault::Device)),
        ("h", 0, 9, Err(LoadFault::Device)),
        ("k", 9, 3, Err(LoadFault::TooLarge)),
        ("g", 9, 4, Ok(())),
    ]
}

/// Adds a file, and one that is read from a source; two that fail, and one that is too long,
/// change nothing.
fn read(alloc: Global, parts: &mut HostFiles) -> Result<(), Fail> {
    insert(alloc, parts, &[("f", b"old")])?;
    for &(name, calls, limit, wanted) in sources() {
        let mut source = Giver::failing(b"abcd", 1, calls);
        if parts.read(alloc, name.to_string(alloc)?, &mut source, limit) != wanted {
            return Err("another answer".into());
        }
    }
    Ok(())
}

#[test]
fn a_file_is_read_behind_the_others(rt: HostRuntime) -> Result<(), Fail> {
    let mut parts = HostFiles::new(rt.alloc());
    read(rt.alloc(), &mut parts)?;
    let ops = ops_of::<LittleEndian>(rt.alloc(), READ, &parts).ok_or("no operations")?;
    equal(&rt, ops.len(), 4);
    expect(&rt, are_written(&ops, 0, found()));
    Ok(())
}

/// Each name is that of a file, and its bytes.
const ORDER: [&str; 5] = ["a", "b", "cc", "b/c", "d"];

/// The files of a listing that names some in the order in which they were read, some before others
/// and some twice, and one that was not read.
const IN_TURN: &[u8] = b"part /x 0 a\npart /x 1 b\npart /x 2 b\npart /x 3 bc\npart /x 4 cc\n\
    part /x 5 d\npart /x 6 b/c\npart /x 7 d\npart /x 8 a\npart /x 9 b\n";

const TURNS: [&str; 10] = ["a", "b", "b", "", "cc", "d", "b/c", "d", "a", "b"];

/// Adds files that have their names as bytes; the first `again` of them are read twice.
fn insert_in_order(alloc: Global, parts: &mut HostFiles, again: usize) -> Result<(), Fail> {
    for name in ORDER.iter().chain(ORDER.iter().take(again)) {
        parts.insert(name.to_string(alloc)?, name.as_bytes())?;
    }
    Ok(())
}

/// Whether the operations write the bytes of the files that they name.
fn are_in_turn(ops: &[Op<'_>]) -> bool {
    ops.len() == TURNS.len()
        && ops.iter().zip(TURNS).all(|(op, wanted)| written(op).is_some_and(|write| write.2
            == wanted.as_bytes()))
}

#[test]
fn files_are_found_in_turn_and_out_of_turn(rt: HostRuntime) -> Result<(), Fail> {
    for again in 0..4 {
        let mut parts = HostFiles::new(rt.alloc());
        insert_in_order(rt.alloc(), &mut parts, again)?;
        for name in ORDER {
            expect(&rt, parts.has(name) && !parts.has("bc"));
        }
        for _ in 0..2 {
            let ops = ops_of::<LittleEndian>(rt.alloc(), IN_TURN, &parts);
            expect(&rt, ops.is_some_and(|ops| are_in_turn(&ops)));
        }
    }
    Ok(())
}

/// Devices, of which one has numbers of 8 bits, and one more.
const DEVICES: &[u8] = b"device c 0600 4 1 /c\ndevice b 0640 259 65537 /b\n";

/// Whether operations make devices of these kinds and numbers.
fn are_devices(ops: &[Op<'_>], wanted: [(DeviceKind, &[u8]); 2]) -> bool {
    let mut same = ops.len() == 2;
    for (op, (kind, bytes)) in ops.iter().zip(wanted) {
        same = same
            && matches!(op, Op::Device { kind: found, number, .. }
                if *found == kind && number.as_slice() == bytes);
    }
    same
}

/// Whether the operations of the lines make devices of these kinds and numbers, in an order.
fn has_numbers<E: Order>(alloc: Global, wanted: [(DeviceKind, &[u8]); 2]) -> bool {
    let parts = HostFiles::new(alloc);
    match ops_of::<E>(alloc, DEVICES, &parts) {
        Some(ops) => are_devices(&ops, wanted),
        None => false,
    }
}

#[test]
fn devices_have_numbers_in_the_order_of_an_image(rt: HostRuntime) {
    let little: [(DeviceKind, &[u8]); 2] = [
        (DeviceKind::Character, &[1, 4]),
        (DeviceKind::Block, &[1, 3, 1, 16]),
    ];
    let big: [(DeviceKind, &[u8]); 2] = [
        (DeviceKind::Character, &[4, 1]),
        (DeviceKind::Block, &[16, 1, 3, 1]),
    ];
    expect(&rt, has_numbers::<LittleEndian>(rt.alloc(), little));
    expect(&rt, has_numbers::<BigEndian>(rt.alloc(), big));
}
