//! The image that goes out for one of which nodes clash.

use crate::checks::{equal_at, expect_at};
use crate::images::Row::{Dropped, Kept};
use crate::images::{Item, compact_of, counts_of, image_of};
use crate::streams::{LZO_A, RTIME_A, ZLIB_A, ZLIB_B};
use crate::written::{self, Case, GEOMETRY};
use byteorder::{BigEndian, LittleEndian};
use jcollect::{Collected, compact_apart};
use jnode::Order;
use jthrough::mount_through;
use std::process::Abort;
use std::test::Fail;
use test_support::{FILE, Taker};

/// How many nodes are left out since others clash with them, and the rows.
#[derive(Clone, Copy)]
struct Apart(usize, Case);

const CASES: [Apart; 4] = [
    Apart(
        1,
        Case(
            "two objects of one name and version",
            &[
                Dropped(Item::Entry(1, 1, 2, b"a")),
                Kept(Item::Entry(1, 1, 3, b"a")),
                Dropped(Item::Data(2, 1, FILE, 3, 0, b"old")),
                Kept(Item::Data(3, 1, FILE, 3, 0, b"new")),
            ],
        ),
    ),
    Apart(
        2,
        Case(
            "three contents of one version, in two methods",
            &[
                Kept(Item::Entry(1, 1, 2, b"a")),
                Dropped(Item::Packed(2, 1, 20, 0, ZLIB_B)),
                Dropped(Item::Data(2, 1, FILE, 20, 0, b"twenty bytes in here")),
                Kept(Item::Packed(2, 1, 20, 0, LZO_A)),
            ],
        ),
    ),
    Apart(
        0,
        Case(
            "one content in two methods is no clash",
            &[
                Kept(Item::Entry(1, 1, 2, b"a")),
                Dropped(Item::Packed(2, 1, 20, 0, ZLIB_A)),
                Kept(Item::Packed(2, 1, 20, 0, RTIME_A)),
            ],
        ),
    ),
    Apart(
        1,
        Case(
            "a clash of what does not matter",
            &[
                Kept(Item::Entry(1, 1, 2, b"a")),
                Kept(Item::Data(2, 1, FILE, 1, 0, b"x")),
                Dropped(Item::Data(7, 1, FILE, 1, 0, b"y")),
                Dropped(Item::Data(7, 1, FILE, 1, 0, b"z")),
            ],
        ),
    ),
];

fn goes_out<E: Order>(
    rt: &(impl Abort + AllocGlobal),
    wants: usize,
    case: Case,
) -> Result<(), Fail> {
    let Case(about, rows) = case;
    let image = image_of::<E>(rt.alloc(), rows)?;
    let wanted = compact_of::<E>(rt.alloc(), rows)?;
    let mut sink = Taker::new(rt.alloc());
    let done = compact_apart::<E, Taker>(rt.alloc(), &image, GEOMETRY, 1, &mut sink)?;
    let (kept, nodes) = counts_of(rows);
    let bytes = u32::try_from(wanted.len()).unwrap_or(u32::MAX);
    equal_at(rt, done.told, Collected { kept, nodes, bytes }, about);
    equal_at(rt, done.left.len(), wants, about);
    equal_at(rt, sink.bytes.as_slice(), wanted.as_slice(), about);
    let mut contents = Vec::new(rt.alloc());
    let is_mounted = mount_through::<E>(rt.alloc(), &sink.bytes, GEOMETRY, &mut contents).is_ok();
    expect_at(rt, is_mounted, about);
    Ok(())
}

#[test]
fn the_highest_of_clashing_nodes_goes_out(rt: HostRuntime) -> Result<(), Fail> {
    for apart in CASES.iter() {
        let Apart(wants, case) = *apart;
        goes_out::<LittleEndian>(&rt, wants, case)?;
        goes_out::<BigEndian>(&rt, wants, case)?;
    }
    Ok(())
}

/// Of an image of which no nodes clash the same goes out as without that.
#[test]
fn nothing_is_left_out_where_nothing_clashes(rt: HostRuntime) -> Result<(), Fail> {
    for case in written::CASES.iter() {
        goes_out::<LittleEndian>(&rt, 0, *case)?;
    }
    Ok(())
}
