//! What is put of an image with bytes in its openings, beside a plain model of it.

use crate::checks::expect_at;
use jopenings::{
    Stretch, StretchesOnFlash, erased_with_stretches, len_with_stretches, put_with_stretches,
};
use jscan::Geometry;
use std::alloc::{AllocError, Global};
use std::test::Fail;
use test_support::Taker;

const SIZE: usize = 4096;

/// The rest of a begun block, all of a blank one, the rest of another begun one but for its end,
/// and a beginning of a block that the image lacks. Nothing went out to one block among them.
const STRETCHES: [Stretch; 5] = [
    Stretch {
        block: 0,
        place: 56,
        len: 40,
    },
    Stretch {
        block: 1,
        place: 0,
        len: 4096,
    },
    Stretch {
        block: 2,
        place: 0,
        len: 0,
    },
    Stretch {
        block: 4,
        place: 20,
        len: 30,
    },
    Stretch {
        block: 5,
        place: 0,
        len: 52,
    },
];

/// A begun block, two blank ones that hold the beginning of a marker, a full one, and the beginning
/// of another begun one. Of the last two blocks nothing is there.
fn image_of(alloc: Global) -> Result<Vec<u8>, AllocError> {
    let mut image = Vec::new(alloc);
    image.resize(56, b'a')?;
    image.resize(SIZE, 0xFF)?;
    image.extend_from_slice(b"\x85\x19")?;
    image.resize(2 * SIZE, 0xFF)?;
    image.push(0x85)?;
    image.resize(3 * SIZE, 0xFF)?;
    image.resize(4 * SIZE + 20, b'b')?;
    Ok(image)
}

/// So many bytes, none of which is erased or as the one before it.
fn bytes_of(alloc: Global, count: usize) -> Result<Vec<u8>, AllocError> {
    let mut bytes = Vec::new(alloc);
    for i in 0..count {
        bytes.push((i % 251) as u8)?;
    }
    Ok(bytes)
}

/// The flash of seven blocks, a byte at a time: from a stretch's place on its block has the bytes
/// that are left, as many as the stretch has, and else erased ones.
fn model(alloc: Global, image: &[u8], bytes: &[u8]) -> Result<Vec<u8>, AllocError> {
    let mut flash = Vec::new(alloc);
    flash.extend_from_slice(image)?;
    flash.resize(7 * SIZE, 0xFF)?;
    let mut left = bytes;
    for stretch in &STRETCHES {
        let (here, behind) = left.split_at(left.len().min(stretch.len as usize));
        for (at, byte) in flash.iter_mut().enumerate() {
            let place = at % SIZE;
            if at / SIZE == stretch.block as usize && stretch.place as usize <= place {
                let index = place - stretch.place as usize;
                *byte = here.get(index).copied().unwrap_or(0xFF);
            }
        }
        left = behind;
    }
    Ok(flash)
}

/// How long the image is then: up to its end, or to the last byte that is not erased.
fn model_len(image: &[u8], flash: &[u8]) -> usize {
    let last = flash.iter().rposition(|byte| *byte != 0xFF);
    image.len().max(last.map_or(0, |last| last.wrapping_add(1)))
}

/// How many blocks of it are erased.
fn model_erased(flash: &[u8]) -> usize {
    let mut count = 0usize;
    for block in flash.chunks(SIZE) {
        if block.iter().all(|byte| *byte == 0xFF) {
            count = count.wrapping_add(1);
        }
    }
    count
}

/// How many blocks are erased in an image with these bytes.
fn erased(image: &[u8], bytes: &[u8]) -> u32 {
    let flash = StretchesOnFlash {
        geometry: Geometry { block: 4096 },
        blocks: 7,
        stretches: &STRETCHES,
    };
    erased_with_stretches(&flash, image, bytes)
}

/// How long an image is with these bytes; and what goes out of its first `len` bytes to a sink that
/// takes `limit`.
fn put(alloc: Global, image: &[u8], bytes: &[u8], len: usize, limit: usize) -> (usize, Taker) {
    let flash = StretchesOnFlash {
        geometry: Geometry { block: 4096 },
        blocks: 7,
        stretches: &STRETCHES,
    };
    let mut sink = Taker::limited(alloc, usize::MAX, limit);
    let _put = put_with_stretches(&mut sink, &flash, image, bytes, len);
    (len_with_stretches(&flash, image, bytes), sink)
}

/// All that went out, more than fits the stretches, and each beginning of it.
#[test]
fn each_cut_is_placed(rt: HostRuntime) -> Result<(), Fail> {
    let alloc = rt.alloc();
    let image = image_of(alloc)?;
    let bytes = bytes_of(alloc, 4220)?;
    for count in 0..bytes.len() + 1 {
        let written = bytes.get(..count).unwrap_or(&[]);
        let wanted = model(alloc, &image, written)?;
        let (len, sink) = put(alloc, &image, written, usize::MAX, usize::MAX);
        let is_well = sink.took(0, &wanted) && len == model_len(&image, &wanted);
        expect_at(&rt, is_well, count);
    }
    Ok(())
}

/// The first bytes of the flash, so many as are asked for, and as many as the sink takes of these.
#[test]
fn a_sink_that_fails_took_a_beginning(rt: HostRuntime) -> Result<(), Fail> {
    let alloc = rt.alloc();
    let image = image_of(alloc)?;
    let bytes = bytes_of(alloc, 4200)?;
    let wanted = model(alloc, &image, &bytes)?;
    for limit in 0..wanted.len() {
        let front = wanted.get(..limit).unwrap_or(&[]);
        let (_len, failed) = put(alloc, &image, &bytes, usize::MAX, limit);
        let (_len, asked) = put(alloc, &image, &bytes, limit, usize::MAX);
        expect_at(&rt, failed.took(1, front) && asked.took(0, front), limit);
    }
    Ok(())
}

/// The counts of bytes that a stretch begins or ends with: each of the four blank blocks counts
/// until a byte went out to it.
#[test]
fn erased_blocks_are_counted(rt: HostRuntime) -> Result<(), Fail> {
    let alloc = rt.alloc();
    let image = image_of(alloc)?;
    let bytes = bytes_of(alloc, 4220)?;
    for (count, left) in [
        (0, 4),
        (40, 4),
        (41, 3),
        (4136, 3),
        (4166, 3),
        (4167, 2),
        (4220, 2),
    ] {
        let written = bytes.get(..count).unwrap_or(&[]);
        let flash = model(alloc, &image, written)?;
        let is_well = erased(&image, written) == left && model_erased(&flash) == left as usize;
        expect_at(&rt, is_well, count);
    }
    Ok(())
}
