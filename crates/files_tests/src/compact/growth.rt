//! A growth that is refused is told as such.

use crate::checks::equal;
use crate::compact::kept::GEOMETRY;
use crate::mount::images::{DIRECTORY, FILE, Item, Version, image_of};
use byteorder::LittleEndian;
use jcompact::{kept_in, unreached};
use jmount::{Mounted, mount};
use std::alloc::{AllocError, Global};

/// A directory of two names, a file of several pieces, one of which counts no more, a name twice,
/// and an object without a name. The last name lacks its last byte.
const ITEMS: &[Item] = &[
    Item::Data(Version(2, 1, DIRECTORY, 0), 0, b""),
    Item::Data(Version(3, 1, FILE, 4), 0, b"abcd"),
    Item::Data(Version(3, 2, FILE, 4), 1, b"BC"),
    Item::Data(Version(3, 3, FILE, 4), 1, b"xyz"),
    Item::Data(Version(4, 1, FILE, 4), 0, b"none"),
    Item::Entry(1, 1, 2, b"d"),
    Item::Entry(2, 2, 3, b"a"),
    Item::Entry(2, 2, 3, b"a"),
    Item::Entry(2, 3, 3, b"nam\xff"),
];

/// The addresses of the nodes that matter.
const WANTED: [u32; 6] = [0, 68, 212, 356, 444, 488];

/// What was found is what is wanted.
fn are(found: &[u32], wanted: &[u32]) -> bool {
    found == wanted
}

/// Whether these are kept; none where memory is wanting.
fn are_kept(alloc: Global, image: &[u8]) -> Option<bool> {
    let Ok(mounted) = mount::<LittleEndian>(alloc, image, GEOMETRY) else {
        return None;
    };
    let Ok(kept) = kept_in::<LittleEndian>(alloc, &mounted, GEOMETRY) else {
        return None;
    };
    let mut found = Vec::new(alloc);
    for (addr, _) in &kept {
        if found.push(*addr).is_err() {
            return None;
        }
    }
    Some(are(&found, &WANTED))
}

fn are_unreached(alloc: Global, mounted: &Mounted<'_>) -> Result<bool, AllocError> {
    let mut found = Vec::new(alloc);
    for number in &unreached(alloc, mounted)? {
        found.push(*number)?;
    }
    Ok(are(&found, &[4]))
}

/// Passes with each allocation failing in turn too: the same call then answers as if there had been
/// none before.
#[test]
fn refused_answers_are_want_of_memory(rt: HostRuntime) {
    let Ok(mut image) = image_of::<LittleEndian>(rt.alloc(), ITEMS) else {
        return;
    };
    let len = image.len().saturating_sub(1);
    image.truncate(len);
    let Ok(mounted) = mount::<LittleEndian>(rt.alloc(), &image, GEOMETRY) else {
        return;
    };
    let kept = are_kept(rt.alloc(), &image).or_else(|| are_kept(rt.alloc(), &image));
    equal(&rt, kept, Some(true));
    let numbers = are_unreached(rt.alloc(), &mounted).or_else(|_| are_unreached(
        rt.alloc(),
        &mounted,
    ));
    equal(&rt, numbers.ok(), Some(true));
}
