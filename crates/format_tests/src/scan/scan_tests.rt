//! What is in whole images.

use crate::checks::equal;
use crate::scan::block_tests::shown;
use crate::scan::bytes::*;
use byteorder::{BigEndian, LittleEndian};
use jnode::{Damage, Fill, NodeRef, Order, Seen};
use jscan::{
    ExtentKind, Finding, FindingKind, Geometry, ScanFault, Sightings, scan, scan_to_refusal,
};
use std::alloc::Global;
use std::process::Abort;
use std::test::Fail;
use test_support::{ATTRIBUTE, ENTRY_A, INCOMPATIBLE, LITTLE_MARKER, READ_ONLY};

const GEOMETRY: Geometry = Geometry { block: 4096 };

/// A node as address, kind, number of its object, version, and length of its name or data.
#[derive(Clone, Copy, Debug, PartialEq, Eq)]
struct Row(u32, &'static str, u32, u32, usize);

/// An image of a length, with these bytes; its nodes, its findings, and whether nothing may be
/// written.
type Image = (usize, Pieces, &'static [Row], &'static [Finding], bool);

fn images() -> &'static [Image] {
    &[
        (
            4137,
            TWO_ENTRIES,
            &[Row(0x0c, "entry", 2, 1, 1), Row(0x1000, "entry", 2, 1, 1)],
            &[],
            false,
        ),
        // A name that passes the end of its block.
        (
            8192,
            &[Piece(4056, &ENTRY_A)],
            &[],
            &[
                Finding {
                    addr: 0xfd8,
                    kind: FindingKind::Dirt,
                },
                Finding {
                    addr: 0x1000,
                    kind: FindingKind::Dirt,
                },
            ],
            false,
        ),
        (
            12288,
            &[
                Piece(0, &HIDING),
                Piece(68, &ENTRY_A),
                Piece(4096, &ATTRIBUTE),
                Piece(4200, &[0x19, 0x85, 0x00, 0x00]),
                Piece(8192, &READ_ONLY),
                Piece(8300, &[0]),
            ],
            &[],
            &[
                Finding {
                    addr: 0,
                    kind: FindingKind::Damaged(Damage::DataCrc),
                },
                Finding {
                    addr: 4096,
                    kind: FindingKind::Attribute,
                },
                Finding {
                    addr: 4200,
                    kind: FindingKind::OtherOrder,
                },
                Finding {
                    addr: 8192,
                    kind: FindingKind::ReadOnly(0xa0f7),
                },
                Finding {
                    addr: 8300,
                    kind: FindingKind::Dirt,
                },
            ],
            true,
        ),
        // Data that pass the end of the image.
        (
            4166,
            &[Piece(4096, &INODE_WITH_TAIL)],
            INODE_ROW,
            &[],
            false,
        ),
        (
            4168,
            &[Piece(4096, &INODE_WITH_TAIL)],
            INODE_ROW,
            &[],
            false,
        ),
        (
            4169,
            &[Piece(4096, &INODE_WITH_TAIL)],
            INODE_ROW,
            &[],
            false,
        ),
        (
            4172,
            &[Piece(4096, &INODE_WITH_TAIL)],
            INODE_ROW,
            &[],
            false,
        ),
        (
            4165,
            &[Piece(4096, &INODE_WITH_TAIL)],
            &[],
            &[Finding {
                addr: 4096,
                kind: FindingKind::Damaged(Damage::DataCrc),
            }],
            false,
        ),
        // Words that pass it.
        (
            4098,
            &[Piece(4096, &[0x19, 0x85])],
            &[],
            &[Finding {
                addr: 4096,
                kind: FindingKind::OtherOrder,
            }],
            false,
        ),
        (
            4097,
            &[Piece(4096, &[0x19, 0x85])],
            &[],
            &[Finding {
                addr: 4096,
                kind: FindingKind::Dirt,
            }],
            false,
        ),
    ]
}

const INODE_ROW: &[Row] = &[Row(4096, "inode", 2, 1, 8)];

fn row_of(node: &(u32, NodeRef<'_>)) -> Row {
    let (addr, node) = node;
    match node {
        NodeRef::Entry(entry) => Row(*addr, "entry", entry.ino, entry.version, entry.name.len()),
        NodeRef::Inode(inode) => {
            let len = match &inode.fill {
                Fill::Zero => 0,
                Fill::Data(data) => data.len(),
            };
            Row(*addr, "inode", inode.ino, inode.version, len)
        }
    }
}

/// The nodes and findings of an image, and what is told of it besides.
type Answer = (Vec<Row>, Vec<Finding>, bool, Option<ScanFault>);

fn scanned<E: Order>(alloc: Global, image: &[u8]) -> Result<Answer, Fail> {
    let scan = scan::<E>(alloc, image, GEOMETRY)?;
    let rows = scan.nodes.iter().map(row_of).collect(alloc)?;
    Ok((rows, scan.findings, scan.read_only, None))
}

fn scanned_to_refusal<E: Order>(alloc: Global, image: &[u8]) -> Result<Answer, Fail> {
    let partial = scan_to_refusal::<E>(alloc, image, GEOMETRY)?;
    let rows = partial.nodes.iter().map(row_of).collect(alloc)?;
    Ok((rows, partial.findings, partial.read_only, partial.refused))
}

/// Stops the test unless this is found in an image.
fn is_found(rt: &impl Abort, answer: &Answer, wanted: &Image) {
    let (rows, findings, read_only, refused) = answer;
    let (_, _, nodes, found, forbids) = wanted;
    equal(rt, rows.as_slice(), *nodes);
    equal(rt, findings.as_slice(), *found);
    equal(rt, (*read_only, *refused), (*forbids, None));
}

#[test]
fn nodes_and_findings_of_images(rt: HostRuntime) -> Result<(), Fail> {
    for wanted in images() {
        let image = flash(rt.alloc(), wanted.0, wanted.1)?;
        is_found(&rt, &scanned::<LittleEndian>(rt.alloc(), &image)?, wanted);
        let partial = scanned_to_refusal::<LittleEndian>(rt.alloc(), &image)?;
        is_found(&rt, &partial, wanted);
    }
    Ok(())
}

#[test]
fn an_empty_image(rt: HostRuntime) -> Result<(), Fail> {
    let none = scanned::<BigEndian>(rt.alloc(), &[])?;
    equal(&rt, (none.0.len(), none.1.len(), none.2), (0, 0, false));
    Ok(())
}

/// Images with a node that no image may have, at 4096, and after it another one.
fn refused() -> &'static [(Pieces, ScanFault)] {
    &[
        (
            &[
                Piece(0, &ENTRY_A),
                Piece(4096, &INCOMPATIBLE),
                Piece(8192, &COMPRESSED),
            ],
            ScanFault::Incompatible {
                addr: 4096,
                nodetype: 0xe0f7,
            },
        ),
        (
            &[
                Piece(0, &ENTRY_A),
                Piece(4096, &COMPRESSED),
                Piece(8192, &INCOMPATIBLE),
            ],
            ScanFault::Compressed {
                addr: 4096,
                compr: 7,
            },
        ),
    ]
}

#[test]
fn the_first_refusal_counts(rt: HostRuntime) -> Result<(), Fail> {
    for &(pieces, want) in refused() {
        let image = flash(rt.alloc(), 12288, pieces)?;
        let scan = scan::<LittleEndian>(rt.alloc(), &image, GEOMETRY);
        equal(&rt, scan.err(), Some(want));
        let partial = scanned_to_refusal::<LittleEndian>(rt.alloc(), &image)?;
        equal(&rt, partial.3, Some(want));
        equal(
            &rt,
            partial.0.as_slice(),
            [Row(0, "entry", 2, 1, 1)].as_slice(),
        );
    }
    Ok(())
}

fn sighting_row(sighting: (u32, Seen<'_>)) -> (u32, &'static str) {
    let (addr, seen) = sighting;
    (addr, shown(&ExtentKind::Tiled(seen)))
}

#[test]
fn sightings_in_order(rt: HostRuntime) -> Result<(), Fail> {
    let image = flash(rt.alloc(), 4137, TWO_ENTRIES)?;
    let sightings: Vec<(u32, &str)> = Sightings::<LittleEndian>::new(&image, GEOMETRY)?
        .map(sighting_row)
        .collect(rt.alloc())?;
    let want = [(0, "marker"), (0x0c, "entry"), (0x1000, "entry")];
    equal(&rt, sightings.as_slice(), want.as_slice());
    Ok(())
}
