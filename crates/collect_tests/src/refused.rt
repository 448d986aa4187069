//! What is refused, before a byte goes out.

use crate::checks::{equal, equal_at, expect};
use crate::images::Row::{Dirt, Dropped, Kept};
use crate::images::{Item, Row, compact_of, image_of};
use byteorder::LittleEndian;
use jcollect::{CollectFault, Collected, compact_into, plan_of};
use jmount::mount;
use jscan::Geometry;
use std::alloc::Global;
use std::test::Fail;
use test_support::{DIRECTORY, FILE, Matcher, READ_ONLY, Taker};

const GEOMETRY: Geometry = Geometry { block: 8192 };

/// A row of images that are refused: what they are about, the block size, how many blocks there
/// are, and the fault.
#[derive(Clone, Copy)]
struct Refused(&'static str, &'static [Row], u32, u32, CollectFault);

const LONG: [u8; 8116] = [7; 8116];

const HALF: [u8; 4000] = [7; 4000];

const REFUSED: [Refused; 6] = [
    Refused(
        "blocks of 4 KiB are read alone",
        &[],
        4096,
        4,
        CollectFault::Geometry,
    ),
    Refused("no block", &[], 8192, 0, CollectFault::Geometry),
    Refused(
        "more than 256 MiB",
        &[],
        8192,
        32769,
        CollectFault::Geometry,
    ),
    Refused(
        "a node that forbids writing",
        &[Dropped(Item::Raw(&READ_ONLY))],
        4096,
        0,
        CollectFault::ReadOnly,
    ),
    Refused(
        "a node of a whole block, without a marker before it",
        &[
            Kept(Item::Data(2, 1, FILE, 8116, 0, &LONG)),
            Dirt(&[0xFF; 8]),
            Kept(Item::Entry(1, 1, 2, b"a")),
        ],
        8192,
        1,
        CollectFault::TooLong { addr: 0 },
    ),
    Refused(
        "one name more than a block holds",
        &[
            Kept(Item::Data(2, 1, FILE, 8000, 0, &HALF)),
            Kept(Item::Data(2, 2, FILE, 8000, 4000, &HALF)),
            Kept(Item::Entry(1, 1, 2, b"a")),
            Dirt(&[0xFF; 12]),
            Kept(Item::Entry(1, 2, 2, b"b")),
        ],
        8192,
        1,
        CollectFault::Full {
            needed: 8224,
            free: 8180,
        },
    ),
];

#[test]
fn images_are_refused_before_a_byte(rt: HostRuntime) -> Result<(), Fail> {
    for row in REFUSED.iter() {
        let Refused(about, rows, block, blocks, fault) = *row;
        let image = image_of::<LittleEndian>(rt.alloc(), rows)?;
        let geometry = Geometry { block };
        let mounted = mount::<LittleEndian>(rt.alloc(), &image, geometry)?;
        let mut sink = Taker::new(rt.alloc());
        let told = compact_into::<LittleEndian, Taker>(
            rt.alloc(),
            &mounted,
            geometry,
            blocks,
            &mut sink,
        );
        equal_at(&rt, told, Err(fault), about);
        equal_at(&rt, sink.bytes.len(), 0, about);
    }
    Ok(())
}

/// A directory of two names, a file of two pieces, one version that counts no more, and an object
/// without a name.
const ROWS: &[Row] = &[
    Kept(Item::Data(2, 1, DIRECTORY, 0, 0, b"")),
    Kept(Item::Data(3, 1, FILE, 4, 0, b"abcd")),
    Dropped(Item::Data(3, 2, FILE, 4, 1, b"BC")),
    Kept(Item::Data(3, 3, FILE, 4, 1, b"xyz")),
    Dropped(Item::Data(4, 1, FILE, 4, 0, b"none")),
    Kept(Item::Entry(1, 1, 2, b"d")),
    Kept(Item::Entry(2, 2, 3, b"a")),
];

/// What is told where this goes out; none where memory is wanting, and nothing went out.
fn told(alloc: Global, image: &[u8], wanted: &[u8]) -> Option<Result<Collected, CollectFault>> {
    let Ok(mounted) = mount::<LittleEndian>(alloc, image, GEOMETRY) else {
        return None;
    };
    let mut sink = Matcher {
        rest: wanted,
        failures: 0,
    };
    match compact_into::<LittleEndian, Matcher<'_>>(alloc, &mounted, GEOMETRY, 1, &mut sink) {
        Err(CollectFault::OutOfMemory) if sink.rest.len() == wanted.len() => None,
        answer => Some(answer),
    }
}

/// Passes with each allocation failing in turn too: the same call then answers as if there had been
/// none before.
#[test]
fn refused_growth_is_want_of_memory(rt: HostRuntime) {
    let Ok(image) = image_of::<LittleEndian>(rt.alloc(), ROWS) else {
        return;
    };
    let Ok(wanted) = compact_of::<LittleEndian>(rt.alloc(), ROWS) else {
        return;
    };
    let answer = told(rt.alloc(), &image, &wanted).or_else(|| told(rt.alloc(), &image, &wanted));
    let bytes = u32::try_from(wanted.len()).unwrap_or(u32::MAX);
    let done = Collected {
        kept: 5,
        nodes: 7,
        bytes,
    };
    equal(&rt, answer, Some(Ok(done)));
}

/// A plan names the nodes, and how many bytes go out for them.
#[test]
fn plans_tell_what_goes_out(rt: HostRuntime) -> Result<(), Fail> {
    let image = image_of::<LittleEndian>(rt.alloc(), ROWS)?;
    let wanted = compact_of::<LittleEndian>(rt.alloc(), ROWS)?;
    let mounted = mount::<LittleEndian>(rt.alloc(), &image, GEOMETRY)?;
    let plan = plan_of::<LittleEndian>(rt.alloc(), &mounted, GEOMETRY, 1)?;
    expect(
        &rt,
        plan.addresses.as_slice() == [0, 68, 212, 356, 400].as_slice(),
    );
    equal(&rt, plan.bytes as usize, wanted.len());
    Ok(())
}
