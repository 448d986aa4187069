//! Damaged nodes beside compressed ones, in images that are mounted through their compression.

use crate::checks::{equal, expect_at};
use crate::damage::flips::{GEOMETRY, Node, flipped_of, totals};
use byteorder::LittleEndian;
use jdamage::put_damage;
use jmount::Object;
use jnode::{CompressedNode, Part, write_compressed};
use jthrough::mount_through;
use std::alloc::Global;
use std::test::Fail;
use test_support::{FILE, Taker, fill_up};

/// Each with its address; the data of the file are at 112.
const PLAIN: [Node; 2] = [
    Node::Entry(1, 1, 2, b"a"), // 0
    Node::Inode(2, 2, FILE, 8, 0, b"ABCDEFGH"), // 44
];

/// A compressed node of the file: version, size of the file, offset, bytes of the range, and data as
/// zlib gives them.
#[derive(Clone, Copy)]
struct Packed(u32, u32, u32, u32, &'static [u8]);

/// Of `abcdefgh`, of `abcd` and of `efgh`.
const WHOLE: &[u8] = b"\x78\xda\x4b\x4c\x4a\x4e\x49\x4d\x4b\xcf\x00\x00\x0e\x00\x03\x25";

const FIRST: &[u8] = b"\x78\xda\x4b\x4c\x4a\x4e\x01\x00\x03\xd8\x01\x8b";

const LAST: &[u8] = b"\x78\xda\x4b\x4d\x4b\xcf\x00\x00\x04\x00\x01\x9b";

const HIGHER: [Packed; 1] = [Packed(3, 8, 0, 8, WHOLE)];

const LOWER: [Packed; 1] = [Packed(1, 8, 0, 8, WHOLE)];

const HALF: [Packed; 1] = [Packed(3, 8, 0, 4, FIRST)];

const HALVES: [Packed; 2] = [Packed(3, 8, 0, 4, FIRST), Packed(4, 8, 4, 4, LAST)];

const CUT: [Packed; 1] = [Packed(3, 4, 0, 4, FIRST)];

const NOTHING: &str = "0000002c data-crc ino 2 version 2 bytes 0 to 8 hides nothing\n\
total damaged 1 paths 0 missing 0 gaps 0\n";

const HIDES: &str = "0000002c data-crc ino 2 version 2 bytes 0 to 8 hides /a\n\
total damaged 1 paths 1 missing 0 gaps 0\n";

const HALF_HIDES: &str = "0000002c data-crc ino 2 version 2 bytes 0 to 8 hides /a\n\
gap ino 2 bytes 4 to 8 in /a\n\
total damaged 1 paths 1 missing 0 gaps 1\n";

const PACKED_HIDES: &str = "00000078 data-crc ino 2 version 3 bytes 0 to 8 hides /a\n\
total damaged 1 paths 1 missing 0 gaps 0\n";

const PACKED_NOTHING: &str = "00000078 data-crc ino 2 version 1 bytes 0 to 8 hides nothing\n\
total damaged 1 paths 0 missing 0 gaps 0\n";

/// The compressed nodes, which begin at 120, the place that is flipped, the lines, how many paths
/// are hidden, and how many gaps there are.
type Row = (&'static [Packed], usize, &'static str, u64, usize);

const ROWS: [Row; 7] = [
    (&HIGHER, 112, NOTHING, 0, 0),
    (&HALF, 112, HALF_HIDES, 1, 1),
    (&HALVES, 112, NOTHING, 0, 0),
    (&CUT, 112, NOTHING, 0, 0),
    (&LOWER, 112, HIDES, 1, 0),
    (&HIGHER, 188, PACKED_HIDES, 1, 0),
    (&LOWER, 188, PACKED_NOTHING, 0, 0),
];

fn rows() -> &'static [Row] {
    &ROWS
}

/// The image of all nodes, with a bit flipped in the byte at a place, if there is one.
fn image_of(
    alloc: Global,
    packed: &[Packed],
    place: Option<usize>,
) -> Result<Vec<u8>, &'static str> {
    let mut image = flipped_of(alloc, &PLAIN, &[])?;
    for Packed(version, isize, offset, dsize, data) in packed {
        let node = CompressedNode {
            ino: 2,
            version: *version,
            mode: FILE,
            uid: 0,
            gid: 0,
            isize: *isize,
            atime: 0,
            mtime: 0,
            ctime: 0,
            offset: *offset,
            dsize: *dsize,
            compr: 6,
            data: Part::new(data, 0),
        };
        write_compressed::<LittleEndian>(&mut image, &node).map_err(|_| "no node")?;
        fill_up(&mut image).map_err(|_| "no memory")?;
    }
    if let Some(place) = place {
        let byte = image.get_mut(place).ok_or("no such place")?;
        *byte ^= 1;
    }
    Ok(image)
}

/// The file of an image, and its first bytes.
fn file_of(alloc: Global, image: &[u8]) -> Result<(Option<Object>, [u8; 8]), &'static str> {
    let mut contents = Vec::new(alloc);
    let mounted = mount_through::<LittleEndian>(alloc, image, GEOMETRY, &mut contents).map_err(
        |_| "no mount",
    )?;
    let mut bytes = [0; 8];
    let _count = mounted.read_at(2, 0, &mut bytes);
    Ok((mounted.object(2), bytes))
}

/// A compressed node gives its range as any other: where no line names the file, it is the same as
/// without damage, and else it is another one.
#[test]
fn beside_compressed_nodes(rt: HostRuntime) -> Result<(), Fail> {
    for &(packed, place, text, paths, gaps) in rows() {
        let image = image_of(rt.alloc(), packed, Some(place))?;
        let mut contents = Vec::new(rt.alloc());
        let mounted = mount_through::<LittleEndian>(
            rt.alloc(),
            &image,
            GEOMETRY,
            &mut contents,
        ).map_err(|_| "no mount")?;
        let mut sink = Taker::new(rt.alloc());
        let told = put_damage::<LittleEndian, _>(rt.alloc(), &mounted, GEOMETRY, &mut sink).map_err(
            |_| "no totals",
        )?;
        equal(&rt, sink.bytes.as_slice(), text.as_bytes());
        equal(&rt, told, totals((1, paths, 0, gaps)));
        let whole = file_of(rt.alloc(), &image_of(rt.alloc(), packed, None)?)?;
        expect_at(
            &rt,
            (file_of(rt.alloc(), &image)? == whole) == (paths == 0),
            text,
        );
    }
    Ok(())
}
