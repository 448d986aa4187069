//! Listings on bases that hold something. More of them are in tests/program.sh.

use crate::build::runs::{Row, emitted, holds};
use crate::checks::{equal, expect, expect_at};
use byteorder::LittleEndian;
use jlog::{Place, SessionFault};
use std::alloc::Global;
use std::test::Fail;
use test_support::{FORBIDS, LITTLE_MARKER, MADE, Taker};

/// Where the two nodes of a new file go.
const NEW_FILE: &[Place] = &[
    Place {
        addr: 12,
        totlen: 68,
    },
    Place {
        addr: 80,
        totlen: 41,
    },
];

fn rows() -> &'static [Row<'static>] {
    &[
        Row {
            base: &MADE,
            blocks: 2,
            text: b"",
            places: &[],
            len: 8192,
            told: "accepted 0 nodes 0 bytes 0\n",
        },
        Row {
            base: &MADE,
            blocks: 1,
            text: b"create 0644 /b\n",
            places: &[],
            len: 8192,
            told: "S2 Full needed 112 free 0",
        },
        Row {
            base: &MADE,
            blocks: 2,
            text: b"create 0644 /a\n",
            places: &[],
            len: 8192,
            told: "S1 Refused O5 Exists",
        },
        Row {
            base: &LITTLE_MARKER,
            blocks: 1,
            text: b"create 0644 /a\n",
            places: NEW_FILE,
            len: 124,
            told: "accepted 1 nodes 2 bytes 124\n",
        },
        Row {
            base: &[0x85, 0x19, 0x03, 0x20, 0x0C, 0, 0],
            blocks: 1,
            text: b"create 0644 /a\n",
            places: NEW_FILE,
            len: 124,
            told: "accepted 1 nodes 2 bytes 124\n",
        },
    ]
}

#[test]
fn what_is_told(rt: HostRuntime) -> Result<(), Fail> {
    for row in rows() {
        expect_at(&rt, holds::<LittleEndian>(rt.alloc(), row)?, row.told);
    }
    Ok(())
}

#[test]
fn a_base_that_is_erased(rt: HostRuntime) -> Result<(), Fail> {
    let erased = vec![in rt.alloc(); 0xFFu8; 9000]?;
    let row = Row {
        base: &erased,
        blocks: 2,
        text: b"create 0644 /a\n",
        places: NEW_FILE,
        len: 124,
        told: "accepted 1 nodes 2 bytes 124\n",
    };
    expect(&rt, holds::<LittleEndian>(rt.alloc(), &row)?);
    Ok(())
}

/// Why nothing is put for a file on a base. The sink comes back as it was.
fn refused(alloc: Global, base: &[u8], blocks: u32) -> Result<Option<SessionFault>, Fail> {
    let sink = Taker::new(alloc);
    match emitted::<LittleEndian, _>(alloc, base, blocks, b"create 0644 /b", sink) {
        Some(Ok(_done)) => Ok(None),
        Some(Err((fault, sink))) if sink.took(0, &[]) => Ok(Some(fault)),
        Some(Err(_)) => Err(Fail::from("the sink is not as it was")),
        None => Err(Fail::from("the base does not mount")),
    }
}

/// Bases, the number of blocks, and why nothing is put.
fn not_gone_on_from() -> &'static [(&'static [u8], u32, SessionFault)] {
    &[
        (&[], 0, SessionFault::Geometry),
        (&[], 32769, SessionFault::Geometry),
        (&FORBIDS, 1, SessionFault::ReadOnly),
        (&FORBIDS, 0, SessionFault::ReadOnly),
    ]
}

#[test]
fn bases_that_are_not_gone_on_from(rt: HostRuntime) -> Result<(), Fail> {
    for &(base, blocks, fault) in not_gone_on_from() {
        equal(&rt, refused(rt.alloc(), base, blocks)?, Some(fault));
    }
    Ok(())
}

#[test]
fn a_base_that_is_longer_than_the_flash(rt: HostRuntime) -> Result<(), Fail> {
    let long = vec![in rt.alloc(); 0xFFu8; 8193]?;
    let found = refused(rt.alloc(), &long, 1)?;
    equal(&rt, found, Some(SessionFault::Geometry));
    Ok(())
}
