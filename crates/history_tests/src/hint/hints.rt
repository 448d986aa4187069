//! The options that an image shows, and the note on them.

use crate::checks::{equal_at, expect_at};
use jhint::{Hint, hint_of, put_hint, size_to_read};
use jinfo::SizeRange;
use jnode::Endian;
use jscan::GREATEST_IMAGE;
use std::alloc::{AllocError, Global};
use std::test::Fail;
use test_support::Taker;

/// A clean marker of the little order.
const MARKER: [u8; 12] = [
    0x85, 0x19, 0x03, 0x20, 0x0c, 0, 0, 0, 0xb1, 0xb0, 0x1e, 0xe4,
];

/// An image of so many bytes with these markers.
fn image_of(alloc: Global, len: usize, markers: &[usize]) -> Result<Vec<u8>, AllocError> {
    let mut image = Vec::new(alloc);
    image.resize(len, 0xFF)?;
    for &addr in markers {
        let end = addr.saturating_add(MARKER.len()).min(image.len());
        let from = addr.min(end);
        image[from..end].copy_from_slice(&MARKER[..end - from]);
    }
    Ok(image)
}

const UNKNOWN: Option<Hint> = Some(Hint {
    order: Endian::Little,
    block: 4_194_304,
});

const OF_8192: Option<Hint> = Some(Hint {
    order: Endian::Little,
    block: 8192,
});

const OF_12288: Option<Hint> = Some(Hint {
    order: Endian::Little,
    block: 12288,
});

const BIG_OF_131072: Hint = Hint {
    order: Endian::Big,
    block: 131_072,
};

/// Where markers are, the order and the block size that the image is read with, and what it shows.
const SHOWN: [(&[usize], Endian, u32, Option<Hint>); 8] = [
    (&[], Endian::Little, 65536, None),
    (&[0], Endian::Little, 65536, None),
    (&[0], Endian::Big, 65536, UNKNOWN),
    (&[0, 8192], Endian::Little, 4096, None),
    (&[0, 8192], Endian::Little, 8192, None),
    (&[0, 8192], Endian::Little, 16384, OF_8192),
    (&[0, 8192], Endian::Big, 8192, OF_8192),
    (&[0, 12288], Endian::Little, 16384, OF_12288),
];

fn shown() -> &'static [(&'static [usize], Endian, u32, Option<Hint>)] {
    &SHOWN
}

#[test]
fn each_image_shows_its_options(rt: HostRuntime) -> Result<(), Fail> {
    for &(markers, order, block, wanted) in shown() {
        let image = image_of(rt.alloc(), 16384, markers)?;
        equal_at(&rt, hint_of(order, block, &image), wanted, (order, block));
    }
    Ok(())
}

/// An image with markers, and one byte longer than is scanned.
fn long_image(alloc: Global) -> Result<Vec<u8>, AllocError> {
    let mut image = image_of(alloc, 1_048_577, &[0, 8192])?;
    let mebibyte = vec![in alloc; 0xFFu8; 1_048_576]?;
    for _ in 0..255 {
        image.extend_from_slice(&mebibyte)?;
    }
    Ok(image)
}

#[test]
fn a_long_image_shows_nothing(rt: HostRuntime) -> Result<(), Fail> {
    let image = long_image(rt.alloc())?;
    equal_at(&rt, image.len(), GREATEST_IMAGE + 1, 0);
    equal_at(&rt, hint_of(Endian::Big, 8192, &image), None, 8192);
    Ok(())
}

#[test]
fn the_greatest_size_serves_to_read(rt: HostRuntime) {
    let range = SizeRange {
        least: 8192,
        greatest: 131_072,
    };
    equal_at(&rt, size_to_read(Some(range)), 131_072, 8192);
    equal_at(&rt, size_to_read(None), 4_194_304, 0);
}

const BIG: &str = "jffs2_image: note: this looks like --endian big --block 131072 (or --auto)\n";

#[test]
fn the_note(rt: HostRuntime) -> Result<(), Fail> {
    for (hint, text) in [(None, ""), (Some(BIG_OF_131072), BIG)] {
        let mut sink = Taker::new(rt.alloc());
        put_hint(hint, &mut sink).map_err(|_| "no note")?;
        equal_at(&rt, sink.bytes.as_slice(), text.as_bytes(), text);
    }
    let mut short = Taker::limited(rt.alloc(), 7, 30);
    let failed = put_hint(Some(BIG_OF_131072), &mut short).is_err();
    let front = BIG.as_bytes().get(..30).ok_or("short")?;
    expect_at(&rt, failed && short.took(1, front), 30);
    Ok(())
}
