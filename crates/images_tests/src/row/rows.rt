//! Rows that are found, and where their addresses lie.

ghost use Rattle.std.specs.Prelude.{IfOk};
ghost use Rattle.jrow.specs.Row.{IsRowOf};

use crate::checks::{equal, equal_at, expect, expect_at};
use crate::row::images::*;
use byteorder::{BigEndian, LittleEndian};
use jnode::Order;
use jrow::Row;
use std::alloc::{AllocError, Global};
use std::test::Fail;

/// The row of an image on a flash of four blocks.
fn row_of<E: Order>(alloc: Global, fronts: &[&[u8]]) -> Result<Row, AllocError>
    ensures { IfOk result (λ row. IsRowOf 4 row) }
{
    let image = image_of(alloc, fronts)?;
    Row::of::<E>(alloc, &image, GEOMETRY, 4)
}

/// How the blocks of an image begin, and which of four are blank then, in little order.
struct Found {
    fronts: &'static [&'static [u8]],
    row: &'static [u32],
}

/// A blank block holds a beginning of the clean marker, or nothing, and is erased after it.
fn blank_blocks() -> &'static [Found] {
    &[
        Found {
            fronts: &[],
            row: &[0, 1, 2, 3],
        },
        Found {
            fronts: &[b"", b"", MARKER_AND_ENTRY],
            row: &[0, 1, 3],
        },
        Found {
            fronts: &[b"\x85", b"\x85\x19\x03\x20\x0c", b"\xFF\xFF\xFF"],
            row: &[0, 1, 2, 3],
        },
        Found {
            fronts: &[b"\x85\x19\xFF\x20", b"\x85\x19\x03\xFF\xFF\xFF\xFF\x01"],
            row: &[2, 3],
        },
        Found {
            fronts: &[
                b"\x85\x19\x03\x20\x0c\0\0\0\xb1\xb0\x1e\xe4",
                b"\x85\x19\x03\x20\x0c\0\0\0\xb1\xb0\x1e\xe4\xFF\0",
                b"\x19\x85\x20\x03\0\0\0\x0c\xf0\x60\xdc\x98",
                b"\0",
            ],
            row: &[0],
        },
        Found {
            fronts: &[b"\0", b"\0", b"\0", b"\0", b"", b"\0"],
            row: &[],
        },
    ]
}

#[test]
fn blank_blocks_are_found(rt: HostRuntime) -> Result<(), Fail> {
    for wanted in blank_blocks() {
        let row = row_of::<LittleEndian>(rt.alloc(), wanted.fronts)?;
        expect_at(&rt, row.as_slice() == wanted.row, wanted.row);
        equal_at(&rt, row.is_empty(), wanted.row.is_empty(), wanted.row);
    }
    Ok(())
}

#[test]
fn a_marker_is_of_its_byte_order(rt: HostRuntime) -> Result<(), Fail> {
    let row = row_of::<BigEndian>(
        rt.alloc(),
        &[b"\x85\x19", b"\x19\x85\x20\x03\0\0\0\x0c\xf0\x60\xdc\x98"],
    )?;
    expect(&rt, row.as_slice() == [1, 2, 3].as_slice());
    Ok(())
}

/// Addresses of the flash with its row last, and where they lie.
fn addresses() -> &'static [(u32, u32)] {
    &[
        (8192, 0),
        (8193, 1),
        (16383, 8191),
        (16384, 8192),
        (24575, 16383),
        (24576, 24576),
        (32767, 32767),
    ]
}

#[test]
fn addresses_lie_in_the_row(rt: HostRuntime) -> Result<(), Fail> {
    let row = row_of::<LittleEndian>(rt.alloc(), THIRD_TAKEN)?;
    equal(&rt, (row.len(), row.is_empty()), (3, false));
    equal(&rt, (row.get(0), row.get(2)), (Some(0), Some(3)));
    equal(&rt, row.get(3), None);
    equal(&rt, row.start(GEOMETRY, 4), 8192);
    for &(at, address) in addresses() {
        equal_at(&rt, row.address(GEOMETRY, 4, at), Some(address), at);
    }
    for at in [0, 8191, 32768, u32::MAX] {
        equal_at(&rt, row.address(GEOMETRY, 4, at), None, at);
    }
    Ok(())
}

#[test]
fn an_image_without_blank_blocks_has_no_row(rt: HostRuntime) -> Result<(), Fail> {
    let row = row_of::<LittleEndian>(rt.alloc(), &[b"\0", b"\0", b"\0", b"\0"])?;
    equal(&rt, row.start(GEOMETRY, 4), 32768);
    equal(&rt, row.address(GEOMETRY, 4, 32767), None);
    Ok(())
}
