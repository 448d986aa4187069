//! Calls that commands are made of, with answers that no command of these tests has.

use crate::checks::{equal_at, expect, expect_at};
use crate::host::MemoryHost;
use crate::info::IMAGE;
use crate::shown::shown;
use byteorder::LittleEndian;
use jcommand::status;
use jedge::fault::Fault;
use jedge::found::{BlankLeft, Found, Note};
use jedge::mounting::judge_nodes;
use jedge::reporting::report;
use jscan::Geometry;
use std::alloc::Global;
use std::process::Abort;
use std::test::Fail;
use test_support::{BIG_ENTRY_A, ENTRY_A};

/// What was found, what standard error is told of it, and the exit status.
struct Row {
    found: Found<'static>,
    wanted: &'static str,
    status: u8,
}

const ROWS: [Row; 6] = [
    Row {
        found: Found {
            counted: 0,
            note: None,
        },
        wanted: "",
        status: 0,
    },
    Row {
        found: Found {
            counted: 2,
            note: None,
        },
        wanted: "",
        status: 3,
    },
    // noted, and not found
    Row {
        found: Found {
            counted: 0,
            note: Some(Note::Findings(2)),
        },
        wanted: "say\n\
jffs2_image: note: 2 findings, see check --scan; a wrong --block or --endian shows as findings too, see info\n",
        status: 0,
    },
    Row {
        found: Found {
            counted: u64::MAX,
            note: Some(Note::Findings(1)),
        },
        wanted: "say\n\
jffs2_image: note: 1 finding, see check --scan; a wrong --block or --endian shows as findings too, see info\n",
        status: 3,
    },
    Row {
        found: Found {
            counted: 0,
            note: Some(Note::Left(BlankLeft {
                findings: 0,
                others: None,
                left: 1,
                reserve: 6,
            })),
        },
        wanted: "say\n\
jffs2_image: note: 1 blank block is left, Linux keeps 6 in reserve\n",
        status: 0,
    },
    Row {
        found: Found {
            counted: 0,
            note: Some(Note::Left(BlankLeft {
                findings: 2,
                others: None,
                left: 0,
                reserve: 3,
            })),
        },
        wanted: "say\n\
jffs2_image: note: 2 findings, see check --scan; a wrong --block or --endian shows as findings too, see info\n\
jffs2_image: note: 0 blank blocks are left, Linux keeps 3 in reserve\n",
        status: 0,
    },
];

/// An answer is told on standard error as it is wanted.
fn reports(
    rt: &impl Abort,
    alloc: Global,
    answer: Result<Found<'static>, Fault>,
    wanted: &str,
) -> Result<u8, Fail> {
    let mut host = MemoryHost::new(rt, alloc, IMAGE);
    let outcome = report(&mut host, answer);
    let found = shown(alloc, host.events.as_slice())?;
    expect_at(rt, found.as_str() == wanted, found.as_str());
    Ok(status(outcome))
}

#[test]
fn what_was_found_is_told(rt: HostRuntime) -> Result<(), Fail> {
    for row in &ROWS {
        let found = reports(&rt, rt.alloc(), Ok(row.found), row.wanted)?;
        equal_at(&rt, found, row.status, row.wanted);
    }
    Ok(())
}

/// Whether an image is gone on with, in little order, where it is read beside others.
fn judged(alloc: Global, image: &[u8]) -> Result<Found<'static>, Fault> {
    match judge_nodes::<LittleEndian>(alloc, image, Geometry { block: 4096 }, Some("b.img")) {
        Ok(()) => Ok(Found {
            counted: 0,
            note: None,
        }),
        Err(fault) => Err(fault),
    }
}

#[test]
fn an_image_without_nodes_has_its_name(rt: HostRuntime) -> Result<(), Fail> {
    expect(&rt, judged(rt.alloc(), &ENTRY_A).is_ok());
    expect(&rt, judged(rt.alloc(), &[0xff; 12]).is_ok());
    let wanted = "say\n\
jffs2_image: I1 NoNodes b.img\n\
jffs2_image: note: the other byte order has 1 node, see --endian and info\n";
    let answer = judged(rt.alloc(), &BIG_ENTRY_A);
    let found = reports(&rt, rt.alloc(), answer, wanted)?;
    equal_at(&rt, found, 1, wanted);
    Ok(())
}
