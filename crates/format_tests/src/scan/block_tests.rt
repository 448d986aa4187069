//! What blocks fall into.

use crate::checks::{equal, equal_at};
use crate::scan::bytes::*;
use byteorder::{BigEndian, LittleEndian};
use jnode::{Damage, Endian, Order, Seen};
use jscan::{
    Extent, ExtentKind, Extents, Finding, FindingKind, Geometry, ScanFault, Tile, TileKind, Tiles,
    examples, laws,
};
use std::alloc::Global;
use std::test::Fail;
use test_support::{
    ATTRIBUTE, ENTRY_A, INCOMPATIBLE, LENGTH_13, LITTLE_MARKER, NO_LENGTH, READ_ONLY,
};

/// An extent as address, length and what it looks like.
#[derive(Clone, Copy, Debug, PartialEq, Eq)]
struct Row(u32, u32, &'static str);

/// Blocks of an order, at an address, of a length, with these bytes, and their extents.
fn blocks() -> &'static [(Endian, u32, usize, Pieces, &'static [Row])] {
    &[
        (
            Endian::Little,
            8192,
            96,
            &[Piece(0, &LITTLE_MARKER), Piece(12, &ENTRY_A)],
            &[
                Row(8192, 12, "marker"),
                Row(8204, 44, "entry"),
                Row(8248, 40, "erased"),
            ],
        ),
        // Headers that do not fit.
        (
            Endian::Little,
            0,
            64,
            &[Piece(0, &NO_LENGTH)],
            &[Row(0, 12, "dirt"), Row(12, 52, "erased")],
        ),
        (
            Endian::Little,
            0,
            64,
            &[Piece(52, &LENGTH_13)],
            &[Row(0, 52, "erased"), Row(52, 12, "dirt")],
        ),
        (
            Endian::Little,
            0,
            64,
            &[Piece(52, &LITTLE_MARKER)],
            &[Row(0, 52, "erased"), Row(52, 12, "marker")],
        ),
        // An entry in damaged data is no node.
        (
            Endian::Little,
            0,
            128,
            &[Piece(0, &HIDING), Piece(68, &ENTRY_A)],
            &[Row(0, 112, "data-crc"), Row(112, 16, "erased")],
        ),
        (
            Endian::Big,
            0,
            84,
            &[Piece(0, &ENTRY_A)],
            &[
                Row(0, 4, "other-order"),
                Row(4, 40, "dirt"),
                Row(44, 40, "erased"),
            ],
        ),
        // The last bytes of a block.
        (Endian::Little, 0, 8, &[], &[Row(0, 8, "erased")]),
        (
            Endian::Little,
            0,
            8,
            &[Piece(4, &[0])],
            &[Row(0, 8, "dirt")],
        ),
        (
            Endian::Little,
            0,
            20,
            &[Piece(16, &[0])],
            &[Row(0, 12, "erased"), Row(12, 8, "dirt")],
        ),
        (Endian::Little, 0, 0, &[], &[]),
        (Endian::Big, 4096, 4096, &[], &[Row(4096, 4096, "erased")]),
    ]
}

pub(crate) fn shown(kind: &ExtentKind<'_>) -> &'static str {
    match kind {
        ExtentKind::Tiled(Seen::Marker) => "marker",
        ExtentKind::Tiled(Seen::Entry(_)) => "entry",
        ExtentKind::Tiled(
            Seen::Damaged {
                which: Damage::DataCrc,
            },
        ) => "data-crc",
        ExtentKind::Tiled(_) => "other node",
        ExtentKind::Erased => "erased",
        ExtentKind::OtherOrder => "other-order",
        ExtentKind::Dirt => "dirt",
    }
}

fn row_of(extent: Extent<'_>) -> Row {
    Row(extent.addr, extent.len, shown(&extent.kind))
}

/// The extents of a flash's bytes, as far as they are whole words.
fn extent_rows<E: Order>(alloc: Global, start: u32, block: &[u8]) -> Result<Vec<Row>, Fail> {
    let words = block.len().min(0xffff) / 4 * 4;
    Ok(
        Extents::<E>::new(start % 0x10000, &block[..words])
            .map(row_of)
            .collect(alloc)?,
    )
}

#[test]
fn extents_of_blocks(rt: HostRuntime) -> Result<(), Fail> {
    let alloc = rt.alloc();
    for &(order, start, len, pieces, want) in blocks() {
        let block = flash(alloc, len, pieces)?;
        let rows = match order {
            Endian::Little => extent_rows::<LittleEndian>(alloc, start, &block)?,
            Endian::Big => extent_rows::<BigEndian>(alloc, start, &block)?,
        };
        equal_at(&rt, rows.as_slice(), want, (len, start));
    }
    Ok(())
}

/// A node's type, and for other tiles their least length.
fn tile_row(tile: Tile<'_, LittleEndian>) -> (usize, usize, u16) {
    let kind = match tile.kind {
        TileKind::Node(header) => header.nodetype,
        TileKind::Word => 4,
        TileKind::Rest => 1,
    };
    (tile.place, tile.bytes.len(), kind)
}

#[test]
fn tiles_in_order(rt: HostRuntime) -> Result<(), Fail> {
    let mut block = [0xff; 72];
    block[..12].copy_from_slice(&LITTLE_MARKER);
    block[12..53].copy_from_slice(&ENTRY_A);
    let rows: Vec<(usize, usize, u16)> = Tiles::<LittleEndian>::new(&block)
        .map(tile_row)
        .collect(rt.alloc())?;
    let want = [
        (0, 12, 0x2003),
        (12, 44, 0xe001),
        (56, 4, 4),
        (60, 4, 4),
        (64, 8, 1),
    ];
    equal(&rt, rows.as_slice(), want.as_slice());
    Ok(())
}

const MIXED: Pieces = &[
    Piece(4, &ATTRIBUTE),
    Piece(16, &READ_ONLY),
    Piece(28, &INCOMPATIBLE),
    Piece(40, &COMPRESSED),
    Piece(112, &HIDING),
    Piece(180, &ENTRY_A),
    Piece(240, &[0x19, 0x85]),
    Piece(244, &[0]),
];

fn findings_of(alloc: Global, block: &[u8]) -> Result<(Vec<Finding>, Vec<ScanFault>), Fail> {
    let mut findings = Vec::new(alloc);
    let mut refusals = Vec::new(alloc);
    let words = block.len().min(256) / 4 * 4;
    for extent in Extents::<LittleEndian>::new(4096, &block[..words]) {
        findings.extend(extent.finding())?;
        refusals.extend(extent.refusal())?;
    }
    Ok((findings, refusals))
}

#[test]
fn findings_and_refusals(rt: HostRuntime) -> Result<(), Fail> {
    let block = flash(rt.alloc(), 256, MIXED)?;
    let (findings, refusals) = findings_of(rt.alloc(), &block)?;
    let want = [
        (4100, FindingKind::Attribute),
        (4112, FindingKind::ReadOnly(0xa0f7)),
        (4208, FindingKind::Damaged(Damage::DataCrc)),
        (4336, FindingKind::OtherOrder),
        (4340, FindingKind::Dirt),
    ]
    .map(|(addr, kind)| Finding { addr, kind });
    equal(&rt, findings.as_slice(), want.as_slice());
    let want = [
        ScanFault::Incompatible {
            addr: 4124,
            nodetype: 0xe0f7,
        },
        ScanFault::Compressed {
            addr: 4136,
            compr: 7,
        },
    ];
    equal(&rt, refusals.as_slice(), want.as_slice());
    Ok(())
}

fn sizes() -> &'static [(u32, bool)] {
    &[
        (4096, true),
        (4092, false),
        (4098, false),
        (4_194_304, true),
        (4_194_308, false),
        (0, false),
    ]
}

#[test]
fn block_sizes(rt: HostRuntime) {
    for &(block, readable) in sizes() {
        equal_at(&rt, Geometry { block }.is_readable(), readable, block);
    }
}

#[test]
fn laws_can_be_called(_rt: HostRuntime) {
    laws::one_tiling();
    laws::tiles_are_few();
    laws::tile_then_rest();
    laws::runs_are_longest();
    laws::extents_make_up();
    laws::extents_are_few();
    laws::extents_are_tiles();
    laws::nodes_are_seen();
    laws::sightings_are_extents();
    laws::headerless_has_no_nodes();
    laws::nodes_are_of_blocks();
    laws::blank_from_is_least();
    laws::addresses_ascend();
    laws::addresses_are_within();
    laws::refusal_is_first();
    laws::nodes_are_contained();
    laws::nodes_fit();
    examples::no_length_is_dirt();
    examples::past_the_end_is_dirt();
    examples::last_marker_is_seen();
    examples::entry_is_seen();
    examples::other_order_is_known();
    examples::rest_is_judged_whole();
    examples::full_block();
    examples::hidden_entry_is_not_seen();
    examples::nodes_of_a_cut_image();
    examples::blank_tail();
}
