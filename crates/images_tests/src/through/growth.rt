//! A growth that is refused is told as such.

use crate::checks::equal;
use crate::through::images::*;
use byteorder::LittleEndian;
use jthrough::{ViewFault, mount_through};
use std::alloc::Global;

const ITEMS: &[Item] = &[
    Item::Packed(Version(2, 1, FILE, 60), 0, 60, ZLIB, ZLIB_HELLO),
    Item::Packed(Version(2, 2, FILE, 60), 40, 20, RTIME, RTIME_A),
    Item::Entry(1, 1, 2, b"a"),
    ATTRIBUTE,
];

/// The second node clashes with the first.
const CLASHING: &[Item] = &[
    Item::Packed(Version(2, 1, FILE, 20), 0, 20, ZLIB, ZLIB_A),
    Item::Packed(Version(2, 1, FILE, 20), 0, 20, ZLIB, ZLIB_B),
];

const BROKEN: &[Item] = &[Item::Packed(Version(2, 1, FILE, 20), 0, 20, ZLIB, ZLIB_BROKEN)];

/// Why an image does not mount; none where it shows what it should.
fn fault(alloc: Global, image: &[u8]) -> Option<ViewFault> {
    let mut contents = Vec::new(alloc);
    match mount_through::<LittleEndian>(alloc, image, GEOMETRY, &mut contents) {
        Ok(mounted) => {
            let mut bytes = [0; 60];
            let count = mounted.read_at(2, 0, &mut bytes);
            let is_shown = count == 60
                && bytes.starts_with(&HELLO[..40])
                && bytes.ends_with(&[b'a'; 20])
                && mounted.find(b"/a") == Ok(2)
                && mounted.findings().len() == 1;
            if is_shown {
                None
            } else {
                Some(ViewFault::BlockSize)
            }
        }
        Err(fault) => Some(fault),
    }
}

/// Passes with each allocation failing in turn too: memory is then blamed, and the same call
/// answers as if there had been none before.
#[test]
fn refused_views_are_want_of_memory(rt: HostRuntime) {
    for (items, want) in [
        (ITEMS, None),
        (CLASHING, Some(ViewFault::Clash { addr: 0x50 })),
        (BROKEN, Some(ViewFault::Data { addr: 0 })),
    ] {
        let Ok(image) = image_of::<LittleEndian>(rt.alloc(), items) else {
            return;
        };
        let mut first = fault(rt.alloc(), &image);
        if first == Some(ViewFault::OutOfMemory) {
            first = fault(rt.alloc(), &image);
        }
        equal(&rt, first, want);
    }
}
