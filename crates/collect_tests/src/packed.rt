//! The image that goes out for one with compressed nodes.

use crate::checks::{equal_at, expect_at};
use crate::images::Row::{Dirt, Dropped, Kept};
use crate::images::{Item, compact_of, counts_of, image_of, unpacked_rows};
use crate::streams::{LZO_A, LZO_ABC, RTIME_A, ZLIB_A, ZLIB_B, ZLIB_HELLO};
use crate::written::{self, Case, GEOMETRY, shows_same};
use byteorder::{BigEndian, LittleEndian};
use jcollect::{Collected, ThroughFault, compact_into, compact_through};
use jmount::mount;
use jnode::Order;
use jthrough::mount_through;
use std::alloc::Global;
use std::process::Abort;
use std::test::Fail;
use test_support::{DIRECTORY, FILE, Taker};

/// Where the same bytes stand in a compressed node and in a plain one, both have the same rows.
const CASES: [Case; 6] = [
    Case(
        "each method, and a plain file",
        &[
            Kept(Item::Packed(2, 1, 60, 0, ZLIB_HELLO)),
            Kept(Item::Packed(3, 2, 20, 0, RTIME_A)),
            Kept(Item::Entry(1, 1, 2, b"a")),
            Kept(Item::Packed(4, 3, 18, 0, LZO_ABC)),
            Kept(Item::Entry(1, 2, 3, b"b")),
            Kept(Item::Data(5, 4, FILE, 3, 0, b"xyz")),
            Kept(Item::Entry(1, 3, 4, b"c")),
            Kept(Item::Entry(1, 4, 5, b"q")),
        ],
    ),
    Case(
        "one byte is shown, or none",
        &[
            Dropped(Item::Packed(2, 1, 20, 1, LZO_A)),
            Kept(Item::Packed(2, 2, 20, 0, RTIME_A)),
            Kept(Item::Packed(2, 3, 21, 1, ZLIB_B)),
            Kept(Item::Entry(1, 1, 2, b"a")),
            Kept(Item::Packed(3, 1, 20, 0, ZLIB_A)),
            Kept(Item::Data(3, 2, FILE, 20, 0, b"nineteen bytes here")),
            Kept(Item::Entry(1, 2, 3, b"b")),
            Dropped(Item::Packed(4, 1, 20, 0, ZLIB_A)),
            Kept(Item::Data(4, 2, FILE, 20, 0, b"twenty bytes in here")),
            Kept(Item::Entry(1, 3, 4, b"c")),
        ],
    ),
    Case(
        "the newest shows no byte, or its size shows none of another",
        &[
            Dropped(Item::Packed(2, 1, 60, 20, LZO_A)),
            Kept(Item::Packed(2, 2, 60, 0, ZLIB_B)),
            Kept(Item::Data(2, 3, FILE, 20, 0, b"")),
            Kept(Item::Entry(1, 1, 2, b"a")),
            Dropped(Item::Packed(3, 1, 20, 0, RTIME_A)),
            Kept(Item::Packed(3, 2, 0, 0, ZLIB_B)),
            Kept(Item::Entry(1, 2, 3, b"b")),
        ],
    ),
    Case(
        "twins, by one method, by two, and one of them plain",
        &[
            Dropped(Item::Packed(2, 1, 20, 0, ZLIB_A)),
            Kept(Item::Packed(2, 1, 20, 0, ZLIB_A)),
            Dropped(Item::Packed(3, 1, 20, 0, ZLIB_A)),
            Dropped(Item::Packed(3, 1, 20, 0, LZO_A)),
            Kept(Item::Packed(3, 1, 20, 0, RTIME_A)),
            Dropped(Item::Data(4, 1, FILE, 20, 0, b"aaaaaaaaaaaaaaaaaaaa")),
            Kept(Item::Packed(4, 1, 20, 0, LZO_A)),
            Dropped(Item::Packed(5, 1, 20, 0, ZLIB_A)),
            Kept(Item::Data(5, 1, FILE, 20, 0, b"aaaaaaaaaaaaaaaaaaaa")),
            Kept(Item::Entry(1, 1, 2, b"a")),
            Kept(Item::Entry(1, 2, 3, b"b")),
            Kept(Item::Entry(1, 3, 4, b"c")),
            Kept(Item::Entry(1, 4, 5, b"q")),
        ],
    ),
    Case(
        "deleted, unreached, and of two names",
        &[
            Kept(Item::Data(2, 1, DIRECTORY, 0, 0, b"")),
            Kept(Item::Entry(1, 1, 2, b"d")),
            Dropped(Item::Entry(1, 2, 3, b"a")),
            Dropped(Item::Packed(3, 1, 20, 0, ZLIB_A)),
            Dropped(Item::Entry(1, 3, 0, b"a")),
            Dropped(Item::Packed(4, 1, 18, 0, LZO_ABC)),
            Dropped(Item::Entry(9, 1, 4, b"far")),
            Kept(Item::Packed(5, 1, 60, 0, ZLIB_HELLO)),
            Kept(Item::Entry(2, 1, 5, b"a")),
            Kept(Item::Entry(2, 2, 5, b"hard")),
        ],
    ),
    Case(
        "markers and dirt among them",
        &[
            Dirt(&[
                0x85, 0x19, 0x03, 0x20, 0x0c, 0, 0, 0, 0xb1, 0xb0, 0x1e, 0xe4,
            ]),
            Kept(Item::Packed(2, 1, 20, 0, RTIME_A)),
            Dirt(&[1, 2, 3, 4]),
            Kept(Item::Packed(2, 2, 40, 20, LZO_A)),
            Dirt(&[0xFF; 8]),
            Kept(Item::Entry(1, 1, 2, b"a")),
        ],
    ),
];

/// Whether an image that went out has no finding, and shows what the other one does, both through
/// their compression.
fn shows<E: Order>(alloc: Global, image: &[u8], out: &[u8]) -> Result<bool, Fail> {
    let mut contents = Vec::new(alloc);
    let mut others = Vec::new(alloc);
    let one = mount_through::<E>(alloc, image, GEOMETRY, &mut contents)?;
    let other = mount_through::<E>(alloc, out, GEOMETRY, &mut others)?;
    shows_same(alloc, &one, &other)
}

fn goes_out<E: Order>(rt: &(impl Abort + AllocGlobal), case: Case) -> Result<(), Fail> {
    let Case(about, rows) = case;
    let image = image_of::<E>(rt.alloc(), rows)?;
    let wanted = compact_of::<E>(rt.alloc(), rows)?;
    let mut sink = Taker::new(rt.alloc());
    let told = compact_through::<E, Taker>(rt.alloc(), &image, GEOMETRY, 1, &mut sink)?;
    let (kept, nodes) = counts_of(rows);
    let bytes = u32::try_from(wanted.len()).unwrap_or(u32::MAX);
    equal_at(rt, told, Collected { kept, nodes, bytes }, about);
    equal_at(rt, sink.bytes.as_slice(), wanted.as_slice(), about);
    expect_at(rt, shows::<E>(rt.alloc(), &image, &sink.bytes)?, about);
    Ok(())
}

#[test]
fn compressed_nodes_go_out_in_their_form(rt: HostRuntime) -> Result<(), Fail> {
    for case in CASES.iter() {
        goes_out::<LittleEndian>(&rt, *case)?;
        goes_out::<BigEndian>(&rt, *case)?;
    }
    Ok(())
}

/// Of an image without compressed nodes the same goes out by both calls.
#[test]
fn plain_images_go_out_alike(rt: HostRuntime) -> Result<(), Fail> {
    for case in written::CASES.iter() {
        goes_out::<LittleEndian>(&rt, *case)?;
        goes_out::<BigEndian>(&rt, *case)?;
    }
    Ok(())
}

/// Of the same nodes with their bytes as they are just the same rows go out.
#[test]
fn the_same_rows_go_out_plain(rt: HostRuntime) -> Result<(), Fail> {
    for case in CASES.iter() {
        let Case(about, rows) = *case;
        let plain = unpacked_rows(rt.alloc(), rows)?;
        let image = image_of::<LittleEndian>(rt.alloc(), &plain)?;
        let wanted = compact_of::<LittleEndian>(rt.alloc(), &plain)?;
        let mounted = mount::<LittleEndian>(rt.alloc(), &image, GEOMETRY)?;
        let mut sink = Taker::new(rt.alloc());
        compact_into::<LittleEndian, Taker>(rt.alloc(), &mounted, GEOMETRY, 1, &mut sink)?;
        equal_at(&rt, sink.bytes.as_slice(), wanted.as_slice(), about);
    }
    Ok(())
}

/// What goes out goes out again, whole.
#[test]
fn nothing_more_is_left_out(rt: HostRuntime) -> Result<(), Fail> {
    for case in CASES.iter() {
        let Case(about, rows) = *case;
        let once = compact_of::<BigEndian>(rt.alloc(), rows)?;
        let mut sink = Taker::new(rt.alloc());
        compact_through::<BigEndian, Taker>(rt.alloc(), &once, GEOMETRY, 1, &mut sink)?;
        equal_at(&rt, sink.bytes.as_slice(), once.as_slice(), about);
    }
    Ok(())
}

/// A sink that takes little, and fails at each byte.
#[test]
fn sinks_fail_at_each_byte(rt: HostRuntime) -> Result<(), Fail> {
    let Case(_, rows) = CASES[0];
    let image = image_of::<LittleEndian>(rt.alloc(), rows)?;
    let wanted = compact_of::<LittleEndian>(rt.alloc(), rows)?;
    for limit in 0..wanted.len() {
        let mut sink = Taker::limited(rt.alloc(), 7, limit);
        let told = compact_through::<LittleEndian, Taker>(
            rt.alloc(),
            &image,
            GEOMETRY,
            1,
            &mut sink,
        );
        let begun = wanted.get(..limit).unwrap_or(&[]);
        let is_sink = told == Err(ThroughFault::Uncollected(jcollect::CollectFault::Sink));
        expect_at(&rt, is_sink, limit);
        expect_at(&rt, sink.took(1, begun), limit);
    }
    Ok(())
}
