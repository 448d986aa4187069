//! Where the blank tail of known flashes begins.

use crate::checks::{equal_at, expect};
use crate::scan::bytes::*;
use byteorder::{BigEndian, LittleEndian};
use jnode::{Endian, Order};
use jscan::{Geometry, blank_from};
use std::process::Abort;
use std::test::Fail;
use test_support::{ENTRY_A, INODE_2, LITTLE_MARKER};

/// The clean marker, and a new file that an entry of the root names.
const NEW_FILE: Pieces = &[
    Piece(0, &LITTLE_MARKER),
    Piece(12, &INODE_2),
    Piece(80, &ENTRY_A),
];

/// What a flash of two blocks of 8,192 bytes has at its beginning, and the block from which on it
/// is blank.
fn flashes() -> &'static [(Endian, usize, Pieces, u32)] {
    &[
        (Endian::Little, 124, NEW_FILE, 1),
        (Endian::Little, 100, NEW_FILE, 1),
        (Endian::Little, 13, NEW_FILE, 1),
        (Endian::Big, 12, &[Piece(0, &LITTLE_MARKER)], 1),
        (Endian::Big, 0, &[], 0),
        (Endian::Little, 16384, &[], 0),
        // One byte of a block, and what is in front of it.
        (Endian::Little, 16384, &[Piece(0, &[0xfe])], 1),
        (Endian::Little, 16384, &[Piece(12, &[0xfe])], 1),
        (Endian::Little, 16384, &[Piece(4095, &[0xfe])], 1),
        (Endian::Little, 16384, &[Piece(8191, &[0xfe])], 1),
        (Endian::Little, 16384, &[Piece(8192, &[0xfe])], 2),
        (Endian::Little, 16384, &[Piece(12289, &[0xfe])], 2),
        (Endian::Little, 16384, &[Piece(16383, &[0xfe])], 2),
        (Endian::Little, 0, &[], 0),
        (Endian::Little, 12, &[], 0),
        (Endian::Little, 4095, &[], 0),
        (Endian::Little, 8191, &[], 0),
        (Endian::Little, 8192, &[], 0),
        (Endian::Little, 12289, &[], 0),
        (Endian::Little, 16383, &[], 0),
        // A marker in the second block.
        (Endian::Little, 8204, &[Piece(8192, &LITTLE_MARKER)], 0),
        (
            Endian::Little,
            8204,
            &[Piece(0, &LITTLE_MARKER), Piece(8192, &LITTLE_MARKER)],
            0,
        ),
        (
            Endian::Little,
            8205,
            &[Piece(8192, &LITTLE_MARKER), Piece(8204, &[0])],
            2,
        ),
        (Endian::Big, 8204, &[Piece(8192, &LITTLE_MARKER)], 2),
    ]
}

fn first_blank<E: Order>(rt: &impl Abort, image: &[u8]) -> u32 {
    expect(rt, image.len() <= 16384);
    blank_from::<E>(image, Geometry { block: 8192 }, 2)
}

#[test]
fn blank_tails(rt: HostRuntime) -> Result<(), Fail> {
    for &(order, len, pieces, want) in flashes() {
        let image = flash(rt.alloc(), len, pieces)?;
        let first = match order {
            Endian::Little => first_blank::<LittleEndian>(&rt, &image),
            Endian::Big => first_blank::<BigEndian>(&rt, &image),
        };
        equal_at(&rt, first, want, len);
    }
    Ok(())
}

/// Any beginning of the marker is blank.
#[test]
fn cut_markers(rt: HostRuntime) {
    for len in 0..13usize {
        let image = LITTLE_MARKER.get(..len).unwrap_or(&[0]);
        equal_at(&rt, first_blank::<LittleEndian>(&rt, image), 0, len);
    }
}
