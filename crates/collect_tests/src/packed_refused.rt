//! What is refused of an image with compressed nodes, before a byte goes out.

use crate::checks::{equal, equal_at};
use crate::images::Row::{Dirt, Dropped, Kept};
use crate::images::{Item, Row, Stream, compact_of, image_of};
use crate::streams::{BROKEN, LZO_A, RTIME_A, UNREAD, ZLIB_A, ZLIB_B, ZLIB_HELLO};
use byteorder::LittleEndian;
use jcollect::ThroughFault::{Uncollected, Unmounted};
use jcollect::{CollectFault, Collected, ThroughFault, compact_through};
use jscan::Geometry;
use jthrough::ViewFault;
use std::alloc::Global;
use std::process::Abort;
use std::test::Fail;
use test_support::{FILE, INCOMPATIBLE, Matcher, READ_ONLY, Taker};

const GEOMETRY: Geometry = Geometry { block: 8192 };

/// A row of images that are refused: what they are about, the block size, how many blocks there
/// are, and the fault.
#[derive(Clone, Copy)]
struct Refused(&'static str, &'static [Row], u32, u32, ThroughFault);

const NAME: Row = Dropped(Item::Entry(1, 1, 2, b"a"));

/// Data of zlib with bytes behind them, which no reader looks at.
const ZEROS: [u8; 8116] = [0; 8116];

/// Stands for nothing, whatever its data.
const LONG: Stream = Stream(6, &ZEROS, b"");

const HALF: Stream = Stream(6, &[7; 4000], b"");

/// Why they do not mount through.
const UNMOUNTED: [Refused; 9] = [
    Refused(
        "a block size that is not read",
        &[],
        4000,
        1,
        Unmounted(ViewFault::BlockSize),
    ),
    Refused(
        "a method that is not read, though nothing shows its node",
        &[NAME, Dropped(Item::Packed(2, 1, 20, 0, UNREAD))],
        4096,
        0,
        Unmounted(ViewFault::Compressed { addr: 44, compr: 5 }),
    ),
    Refused(
        "data that are damaged",
        &[NAME, Dropped(Item::Packed(2, 1, 20, 0, BROKEN))],
        8192,
        1,
        Unmounted(ViewFault::Data { addr: 44 }),
    ),
    Refused(
        "the lower of two faults",
        &[
            Dropped(Item::Packed(2, 1, 20, 0, UNREAD)),
            Dropped(Item::Packed(2, 1, 20, 0, BROKEN)),
        ],
        8192,
        1,
        Unmounted(ViewFault::Compressed { addr: 0, compr: 5 }),
    ),
    Refused(
        "compressed nodes that clash",
        &[
            Dropped(Item::Packed(2, 1, 20, 0, ZLIB_A)),
            Dropped(Item::Packed(2, 1, 20, 0, ZLIB_B)),
        ],
        8192,
        1,
        Unmounted(ViewFault::Clash { addr: 80 }),
    ),
    Refused(
        "a plain node that clashes with a compressed one",
        &[
            NAME,
            Dropped(Item::Packed(2, 1, 20, 0, RTIME_A)),
            Dropped(Item::Data(2, 1, FILE, 20, 0, b"aaaaaaaaaaaaaaaaaaab")),
        ],
        8192,
        1,
        Unmounted(ViewFault::Clash { addr: 116 }),
    ),
    Refused(
        "a type that is not known",
        &[NAME, Dropped(Item::Raw(&INCOMPATIBLE))],
        8192,
        1,
        Unmounted(ViewFault::Incompatible {
            addr: 44,
            nodetype: 0xE0F7,
        }),
    ),
    Refused(
        "a root that is a file",
        &[Dropped(Item::Packed(1, 1, 20, 0, ZLIB_A))],
        8192,
        1,
        Unmounted(ViewFault::RootKind),
    ),
    Refused(
        "before what forbids writing",
        &[
            Dropped(Item::Raw(&READ_ONLY)),
            Dropped(Item::Packed(2, 1, 20, 0, UNREAD)),
        ],
        8192,
        1,
        Unmounted(ViewFault::Compressed { addr: 12, compr: 5 }),
    ),
];

/// Why their nodes do not go out.
const UNCOLLECTED: [Refused; 6] = [
    Refused(
        "a node that forbids writing",
        &[
            Dropped(Item::Raw(&READ_ONLY)),
            Dropped(Item::Packed(2, 1, 20, 0, ZLIB_A)),
        ],
        4096,
        0,
        Uncollected(CollectFault::ReadOnly),
    ),
    Refused(
        "blocks of 4 KiB are read alone",
        &[Dropped(Item::Packed(2, 1, 20, 0, ZLIB_A))],
        4096,
        4,
        Uncollected(CollectFault::Geometry),
    ),
    Refused(
        "no block",
        &[],
        8192,
        0,
        Uncollected(CollectFault::Geometry),
    ),
    Refused(
        "more than 256 MiB",
        &[],
        8192,
        32769,
        Uncollected(CollectFault::Geometry),
    ),
    Refused(
        "a compressed node of a whole block, without a marker before it",
        &[
            Kept(Item::Packed(2, 1, 0, 0, LONG)),
            Dirt(&[0xFF; 8]),
            Kept(Item::Entry(1, 1, 2, b"a")),
        ],
        8192,
        1,
        Uncollected(CollectFault::TooLong { addr: 0 }),
    ),
    Refused(
        "one name more than a block holds",
        &[
            Kept(Item::Packed(2, 1, 0, 0, HALF)),
            Kept(Item::Packed(3, 1, 0, 0, HALF)),
            Kept(Item::Entry(1, 1, 2, b"a")),
            Dirt(&[0xFF; 12]),
            Kept(Item::Entry(1, 2, 3, b"b")),
        ],
        8192,
        1,
        Uncollected(CollectFault::Full {
            needed: 8224,
            free: 8180,
        }),
    ),
];

fn are_refused(rt: &(impl Abort + AllocGlobal), refused: &[Refused]) -> Result<(), Fail> {
    for row in refused {
        let Refused(about, rows, block, blocks, fault) = *row;
        let image = image_of::<LittleEndian>(rt.alloc(), rows)?;
        let geometry = Geometry { block };
        let mut sink = Taker::new(rt.alloc());
        let told = compact_through::<LittleEndian, Taker>(
            rt.alloc(),
            &image,
            geometry,
            blocks,
            &mut sink,
        );
        equal_at(rt, told, Err(fault), about);
        equal_at(rt, sink.bytes.len(), 0, about);
    }
    Ok(())
}

#[test]
fn images_are_refused_before_a_byte(rt: HostRuntime) -> Result<(), Fail> {
    are_refused(&rt, &UNMOUNTED)?;
    are_refused(&rt, &UNCOLLECTED)
}

/// A file of three methods, one version that counts no more, and an object without a name.
const ROWS: &[Row] = &[
    Kept(Item::Packed(3, 1, 60, 0, ZLIB_HELLO)),
    Dropped(Item::Packed(3, 2, 60, 0, RTIME_A)),
    Kept(Item::Packed(3, 3, 60, 0, LZO_A)),
    Dropped(Item::Packed(4, 1, 20, 0, ZLIB_A)),
    Kept(Item::Packed(3, 4, 80, 60, ZLIB_B)),
    Kept(Item::Entry(1, 1, 3, b"a")),
];

fn is_of_memory(fault: ThroughFault) -> bool {
    fault == Unmounted(ViewFault::OutOfMemory) || fault == Uncollected(CollectFault::OutOfMemory)
}

/// What is told where this goes out; none where memory is wanting, and nothing went out.
fn told(alloc: Global, image: &[u8], wanted: &[u8]) -> Option<Result<Collected, ThroughFault>> {
    let mut sink = Matcher {
        rest: wanted,
        failures: 0,
    };
    match compact_through::<LittleEndian, Matcher<'_>>(alloc, image, GEOMETRY, 1, &mut sink) {
        Err(fault) if is_of_memory(fault) && sink.rest.len() == wanted.len() => None,
        answer => Some(answer),
    }
}

/// Passes with each allocation failing in turn too: the same call then answers as if there had been
/// none before.
#[test]
fn refused_growth_is_want_of_memory(rt: HostRuntime) {
    let Ok(image) = image_of::<LittleEndian>(rt.alloc(), ROWS) else {
        return;
    };
    let Ok(wanted) = compact_of::<LittleEndian>(rt.alloc(), ROWS) else {
        return;
    };
    let answer = told(rt.alloc(), &image, &wanted).or_else(|| told(rt.alloc(), &image, &wanted));
    let bytes = u32::try_from(wanted.len()).unwrap_or(u32::MAX);
    let done = Collected {
        kept: 4,
        nodes: 6,
        bytes,
    };
    equal(&rt, answer, Some(Ok(done)));
}
