//! Images that do not mount through their compression.

use crate::checks::equal_at;
use crate::through::images::*;
use byteorder::{BigEndian, LittleEndian};
use jnode::Order;
use jscan::Geometry;
use jthrough::{ViewFault, mount_through, mount_view, view_image};
use std::alloc::Global;
use std::process::Abort;
use std::test::Fail;

const PLAIN_A: Item = Item::Plain(Version(2, 1, FILE, 20), 0, &[b'a'; 20]);

const PACKED_A: Item = Item::Packed(Version(2, 1, FILE, 20), 0, 20, ZLIB, ZLIB_A);

const PACKED_B: Item = Item::Packed(Version(2, 1, FILE, 20), 0, 20, ZLIB, ZLIB_B);

const BROKEN: Item = Item::Packed(Version(4, 1, FILE, 20), 0, 20, ZLIB, ZLIB_BROKEN);

/// Its data give twenty bytes, and its range has 21.
const SHORT: Item = Item::Packed(Version(4, 1, FILE, 21), 0, 21, RTIME, RTIME_A);

const UNREAD: Item = Item::Packed(Version(5, 1, FILE, 20), 0, 20, UNKNOWN, ZLIB_A);

/// A block of 4,096 bytes does not hold a marker and 68 and 4,017 bytes.
const LONG: Item = Item::Packed(Version(6, 1, FILE, 4017), 0, 4017, ZLIB, ZLIB_A);

/// One byte less would fit, and has no content.
const FITS: Item = Item::Packed(Version(6, 1, FILE, 4016), 0, 4016, ZLIB, ZLIB_A);

const NAME: Item = Item::Entry(1, 1, 2, b"a");

/// What an image has, how many of its tiles give nodes in front of what refuses its view, why it is
/// refused, and why it does not mount.
#[derive(Clone, Copy)]
struct Row(
    &'static str,
    &'static [Item],
    usize,
    Option<ViewFault>,
    Option<ViewFault>,
);

const M3: ViewFault = ViewFault::Incompatible {
    addr: 0x2C,
    nodetype: 0xE0F7,
};

const M4: ViewFault = ViewFault::Compressed {
    addr: 0x2C,
    compr: UNKNOWN,
};

const Z1: ViewFault = ViewFault::Data { addr: 0x2C };

const Z2: ViewFault = ViewFault::TooLong { addr: 0x2C };

/// A node that refuses the image by itself, behind an entry of 44 bytes.
fn by_itself() -> &'static [Row] {
    &[
        Row("a type", &[NAME, INCOMPATIBLE], 1, Some(M3), Some(M3)),
        Row("a method", &[NAME, UNREAD, NAME], 1, Some(M4), Some(M4)),
        Row("damage", &[NAME, BROKEN], 1, Some(Z1), Some(Z1)),
        Row("few bytes", &[NAME, SHORT, PLAIN_A], 1, Some(Z1), Some(Z1)),
        Row("much", &[NAME, LONG], 1, Some(Z2), Some(Z2)),
        Row("just not much", &[NAME, FITS], 1, Some(Z1), Some(Z1)),
        Row("the first", &[NAME, BROKEN, UNREAD], 1, Some(Z1), Some(Z1)),
        Row("the other", &[NAME, UNREAD, BROKEN], 1, Some(M4), Some(M4)),
    ]
}

/// Nodes that clash once they are expanded: as they are 88 bytes, and compressed 80.
fn clashes() -> &'static [Row] {
    const AT_58: Option<ViewFault> = Some(ViewFault::Clash { addr: 0x58 });

    const AT_50: Option<ViewFault> = Some(ViewFault::Clash { addr: 0x50 });

    &[
        Row("compressed above", &[PLAIN_A, PACKED_B], 2, None, AT_58),
        Row(
            "compressed below",
            &[PACKED_B, PLAIN_A, NAME],
            3,
            None,
            AT_50,
        ),
        Row("both compressed", &[PACKED_A, PACKED_B], 2, None, AT_50),
        Row("one content", &[PACKED_A, PLAIN_A], 2, None, None),
        Row(
            "a clash in front",
            &[PACKED_A, PACKED_B, UNREAD],
            2,
            Some(ViewFault::Compressed {
                addr: 0xA0,
                compr: UNKNOWN,
            }),
            AT_50,
        ),
        Row(
            "a clash behind",
            &[PACKED_A, BROKEN, PACKED_B],
            1,
            Some(ViewFault::Data { addr: 0x50 }),
            Some(ViewFault::Data { addr: 0x50 }),
        ),
    ]
}

/// The root is a file.
fn roots() -> &'static [Row] {
    &[
        Row(
            "a root that is a file",
            &[Item::Packed(Version(1, 1, FILE, 20), 0, 20, RTIME, RTIME_A)],
            1,
            None,
            Some(ViewFault::RootKind),
        ),
        Row(
            "one that is a directory",
            &[Item::Packed(Version(1, 1, DIRECTORY, 20), 0, 20, RTIME, RTIME_A)],
            1,
            None,
            None,
        ),
    ]
}

fn is_refused<E: Order>(rt: &impl Abort, alloc: Global, row: Row) -> Result<(), Fail> {
    let Row(about, items, tiles, refused, fault) = row;
    let image = image_of::<E>(alloc, items)?;
    let mut contents = Vec::new(alloc);
    let view = view_image::<E>(alloc, &image, GEOMETRY, &mut contents)?;
    equal_at(rt, view.refused, refused, about);
    equal_at(rt, view.tiles.len(), tiles, about);
    let mounted = mount_view::<E>(alloc, &image, GEOMETRY, view, &contents);
    equal_at(rt, mounted.err(), fault, about);
    let mut buffer = Vec::new(alloc);
    let mounted = mount_through::<E>(alloc, &image, GEOMETRY, &mut buffer);
    equal_at(rt, mounted.err(), fault, about);
    Ok(())
}

#[test]
fn the_least_address_is_told(rt: HostRuntime) -> Result<(), Fail> {
    for rows in [by_itself(), clashes(), roots()] {
        for &row in rows {
            is_refused::<LittleEndian>(&rt, rt.alloc(), row)?;
            is_refused::<BigEndian>(&rt, rt.alloc(), row)?;
        }
    }
    Ok(())
}

/// Block sizes that are not read.
#[test]
fn block_sizes_come_first(rt: HostRuntime) -> Result<(), Fail> {
    let image = image_of::<LittleEndian>(rt.alloc(), &[INCOMPATIBLE])?;
    for block in [0, 4092, 4098, 4_194_308] {
        let mut contents = vec![in rt.alloc(); 9]?;
        let geometry = Geometry { block };
        let mounted = mount_through::<LittleEndian>(rt.alloc(), &image, geometry, &mut contents);
        equal_at(&rt, mounted.err(), Some(ViewFault::BlockSize), block);
    }
    Ok(())
}
