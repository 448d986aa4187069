//! What is visible after pieces in any order of arrival.
ghost use Rattle.std.specs.Prelude.{◌<◌, ◌^◌};
ghost use Rattle.jfrag.specs.Pieces.{end_of};

use crate::checks::equal;
use crate::frag::pieces::{byte_at, bytes_at, first_bytes, worked_bytes, worked_piece, zeros_at};
use flashbase::Part;
use jfrag::{Body, FragOverlay, Overlay, Piece, PlainOverlay, overlay};
use std::alloc::Global;
use std::process::Abort;
use std::test::Fail;

const ORDERS_OF_THREE: [[u32; 3]; 6] = [
    [1, 2, 3],
    [1, 3, 2],
    [2, 1, 3],
    [2, 3, 1],
    [3, 1, 2],
    [3, 2, 1],
];

/// The worked example, one `add` after another.
fn overlaid_in<'a, O: Overlay<'a>>(alloc: Global, order: [u32; 3]) -> Result<O, Fail> {
    let mut overlaid = O::new(alloc);
    for version in order {
        overlaid.add(worked_piece(version))?;
    }
    Ok(overlaid)
}

/// Whether an overlay shows the worked example, kept in so many pieces.
fn is_worked_example<'a, O: Overlay<'a>>(rt: &impl Abort, overlaid: &O, pieces: usize) {
    equal(rt, first_bytes(overlaid), worked_bytes());
    equal(rt, overlaid.pieces(), pieces);
    equal(rt, byte_at(overlaid, 59), 22);
    equal(rt, byte_at(overlaid, u64::MAX), 0);
}

#[test]
fn three_pieces_in_any_order(rt: HostRuntime) -> Result<(), Fail> {
    for order in ORDERS_OF_THREE {
        let plain: PlainOverlay = overlaid_in(rt.alloc(), order)?;
        is_worked_example(&rt, &plain, 3);
        let frag: FragOverlay = overlaid_in(rt.alloc(), order)?;
        is_worked_example(&rt, &frag, 4);
    }
    Ok(())
}

/// A piece that is there already, and one of no length, change no interval.
#[test]
fn idle_pieces(rt: HostRuntime) -> Result<(), Fail> {
    for order in ORDERS_OF_THREE {
        let mut frag: FragOverlay = overlaid_in(rt.alloc(), order)?;
        frag.add(worked_piece(1))?;
        frag.add(zeros_at(9, 20, 0))?;
        is_worked_example(&rt, &frag, 4);
    }
    Ok(())
}

#[test]
fn three_pieces_at_once(rt: HostRuntime) -> Result<(), Fail> {
    for order in ORDERS_OF_THREE {
        let [a, b, c] = order;
        let pieces = [worked_piece(a), worked_piece(b), worked_piece(c)];
        let plain: PlainOverlay = overlay(rt.alloc(), &pieces)?;
        is_worked_example(&rt, &plain, 3);
        let frag: FragOverlay = overlay(rt.alloc(), &pieces)?;
        is_worked_example(&rt, &frag, 4);
    }
    Ok(())
}

#[test]
fn zeros_hide_older_bytes(rt: HostRuntime) -> Result<(), Fail> {
    let zeros = zeros_at(2, 0, 10);
    let bytes = bytes_at(1, 0, &[7; 20]);
    let frag: FragOverlay = overlay(rt.alloc(), &[zeros, bytes])?;
    let mut wanted = [0; 25];
    wanted[10..20].fill(7);
    let mut out = [9u8; 25];
    frag.read_at(0, &mut out);
    equal(&rt, out, wanted);
    Ok(())
}

/// Where the zeros end that begin at each place: bytes from 5 to 7, zeros from 7 to 12, bytes from
/// 20 to 23.
const HOLE_ENDS: [(u16, u32); 9] = [
    (0, 5),
    (4, 5),
    (5, 5),
    (6, 6),
    (7, 12),
    (11, 12),
    (12, 20),
    (22, 22),
    (23, u32::MAX),
];

#[test]
fn zeros_that_no_piece_has(rt: HostRuntime) -> Result<(), Fail> {
    let bytes = bytes_at(1, 5, &[7; 4]);
    let zeros = zeros_at(2, 7, 5);
    let more = bytes_at(3, 20, &[9; 3]);
    let frag: FragOverlay = overlay(rt.alloc(), &[bytes, zeros, more])?;
    for (place, end) in HOLE_ENDS {
        equal(&rt, frag.hole_end(u32::from(place)), end);
    }
    Ok(())
}

#[test]
fn zeros_beside_one_piece(rt: HostRuntime) -> Result<(), Fail> {
    let bytes: FragOverlay = overlay(rt.alloc(), &[bytes_at(1, 5, &[7; 4])])?;
    let ends = [bytes.hole_end(1), bytes.hole_end(8), bytes.hole_end(9)];
    equal(&rt, ends, [5, 8, u32::MAX]);
    let zeros: FragOverlay = overlay(rt.alloc(), &[zeros_at(2, 7, 5)])?;
    equal(&rt, [zeros.hole_end(7), zeros.hole_end(12)], [12, u32::MAX]);
    Ok(())
}

#[test]
fn missing_bytes_are_erased_flash(rt: HostRuntime) -> Result<(), Fail> {
    let piece = Piece {
        version: 1,
        offset: 2,
        body: Body::Bytes(Part::new(&[7; 3], 2)),
    };
    let frag: FragOverlay = overlay(rt.alloc(), &[piece])?;
    let mut out = [9u8; 8];
    frag.read_at(0, &mut out);
    equal(&rt, out, [0, 0, 7, 7, 7, 0xFF, 0xFF, 0]);
    Ok(())
}

/// The orders of four, each once.
const ORDERS_OF_FOUR: [[usize; 4]; 24] = [
    [0, 1, 2, 3],
    [0, 1, 3, 2],
    [0, 2, 1, 3],
    [0, 2, 3, 1],
    [0, 3, 1, 2],
    [0, 3, 2, 1],
    [1, 0, 2, 3],
    [1, 0, 3, 2],
    [1, 2, 0, 3],
    [1, 2, 3, 0],
    [1, 3, 0, 2],
    [1, 3, 2, 0],
    [2, 0, 1, 3],
    [2, 0, 3, 1],
    [2, 1, 0, 3],
    [2, 1, 3, 0],
    [2, 3, 0, 1],
    [2, 3, 1, 0],
    [3, 0, 1, 2],
    [3, 0, 2, 1],
    [3, 1, 0, 2],
    [3, 1, 2, 0],
    [3, 2, 0, 1],
    [3, 2, 1, 0],
];

/// An old piece over 0 to 99, or one of three newer ones within it.
fn piece_in_the_way(index: usize) -> Piece<'static>
    ensures { end_of result < 2 ^ 32 }
{
    match index {
        0 => zeros_at(1, 0, 100),
        1 => zeros_at(2, 10, 10),
        2 => zeros_at(3, 30, 10),
        _ => zeros_at(4, 50, 10),
    }
}

/// An old piece over 0 to 99 fills every gap between newer ones.
#[test]
fn every_gap_is_filled_in_any_order(rt: HostRuntime) -> Result<(), Fail> {
    for order in ORDERS_OF_FOUR {
        let mut frag: FragOverlay = FragOverlay::new(rt.alloc());
        for index in order {
            frag.add(piece_in_the_way(index))?;
        }
        equal(&rt, frag.pieces(), 7);
    }
    Ok(())
}
