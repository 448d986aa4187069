//! What goes out from where a log goes on.

use crate::build::runs::{GEOMETRY, made, read_files};
use crate::checks::{equal, expect};
use byteorder::LittleEndian;
use jbuild::{EmitFault, Emitted, HostFiles, emit_from, operations};
use jlisting::listing;
use jlog::{Flash, SessionFault, Start};
use jmount::{Mounted, mount};
use jscan::Page;
use jsteps::Op;
use std::alloc::Global;
use std::test::Fail;
use test_support::{MADE, Taker};

const TEXT: &[u8] = b"create 0644 /b\nwrite /b 0 0102\n";

const FLASH: Flash = Flash {
    geometry: GEOMETRY,
    blocks: 2,
    page: Page::P4096,
};

type Answer = Result<(Taker, Emitted), (EmitFault, Taker)>;

/// What goes out for operations on a base of 124 bytes, which is gone on from at 8192.
fn emitted_on(alloc: Global, ops: &[Op<'_>], sink: Taker) -> Option<Answer> {
    let mounted = mount::<LittleEndian>(alloc, &MADE, GEOMETRY).ok()?;
    match Start::<LittleEndian>::of(&mounted, FLASH) {
        Ok(start) => Some(emit_from(alloc, &start, ops, sink)),
        Err(_) => None,
    }
}

/// What goes out for a file on it.
fn emitted_of(alloc: Global, parts: &HostFiles, sink: Taker) -> Option<Answer> {
    let lines = listing(alloc, TEXT).ok()?;
    let ops = operations::<LittleEndian>(alloc, lines, parts).ok()?;
    emitted_on(alloc, &ops, sink)
}

fn emitted(alloc: Global, sink: Taker) -> Result<Answer, Fail> {
    let parts = read_files(alloc)?;
    Ok(emitted_of(alloc, &parts, sink).ok_or("not begun")?)
}

/// The base, erased flash up to the next block, and there the nodes.
#[test]
fn an_image_and_its_report(rt: HostRuntime) -> Result<(), Fail> {
    let whole = made::<LittleEndian>(rt.alloc(), &MADE, 2, TEXT)?;
    let Ok((sink, Emitted { report, blocks })) = emitted(rt.alloc(), Taker::new(rt.alloc()))? else {
        return Err(Fail::from("not emitted"));
    };
    equal(&rt, sink.bytes.len(), 8388);
    expect(&rt, sink.bytes.as_slice() == whole.output.as_slice());
    let places = report.places.iter().map(|place| (place.addr, place.totlen));
    expect(&rt, places.eq([(8204, 68), (8272, 41), (8316, 70)]));
    equal(&rt, (report.accepted, report.stopped), (2, None));
    expect(&rt, blocks == Ok(None));
    Ok(())
}

#[test]
fn a_sink_that_fails_before_the_nodes(rt: HostRuntime) -> Result<(), Fail> {
    for limit in [0, 100, 124, 8191] {
        let Err((fault, sink)) = emitted(rt.alloc(), Taker::limited(rt.alloc(), 4096, limit))?
        else {
            return Err(Fail::from("it is emitted"));
        };
        equal(&rt, fault, EmitFault::Sink);
        equal(&rt, SessionFault::from(fault), SessionFault::Sink);
        equal(&rt, (sink.bytes.len(), sink.failures), (limit, 1));
        let base = MADE.iter().take(limit);
        expect(&rt, sink.bytes.iter().take(124).eq(base));
    }
    Ok(())
}
