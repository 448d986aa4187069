//! A part is one list: the bytes that an image has, and then missing ones that count as 0xFF.

use crate::checks::{equal, equal_at, expect};
use flashbase::Part;
use std::alloc::Global;
use std::process::Abort;
use std::test::Fail;

/// Whether a part shows this list, of this checksum.
fn is_list(
    rt: &impl Abort,
    alloc: Global,
    part: &Part<'_>,
    list: &[u8],
    sum: u32,
) -> Result<(), Fail> {
    let bytes: Vec<u8> = part.iter().collect(alloc)?;
    expect(rt, bytes.as_slice() == list);
    expect(rt, part.len() == list.len());
    expect(rt, part.is_empty() == list.is_empty());
    expect(rt, part.crc() == sum);
    Ok(())
}

/// The checksums are zlib's.
#[test]
fn a_part_is_one_list(rt: HostRuntime) -> Result<(), Fail> {
    let part = Part::new(&[1, 2, 3], 2);
    for (shown, list, sum) in [
        (part.copied(), [1, 2, 3, 0xFF, 0xFF].as_slice(), 0x2B09_4D9D),
        (part.slice(1, 3), [2, 3, 0xFF].as_slice(), 0x05AB_6820),
        (part.slice(0, 2), [1, 2].as_slice(), 0xF715_506D),
        (part.slice(4, 1), [0xFF].as_slice(), 0x2D02_EF8D),
        (part.slice(5, 0), [].as_slice(), 0),
        (Part::new(&[], 0), [].as_slice(), 0),
        (Part::new(&[], 20), [0xFF; 20].as_slice(), 0x2322_E93D),
    ] {
        is_list(&rt, rt.alloc(), &shown, list, sum)?;
    }
    Ok(())
}

#[test]
fn bytes_of_a_part(rt: HostRuntime) {
    let part = Part::new(&[1, 2, 3], 2);
    equal(&rt, part.present(), [1, 2, 3].as_slice());
    for (i, byte) in [(2, Some(3)), (4, Some(0xFF)), (5, None)] {
        equal_at(&rt, part.get(i), byte, i);
    }
}

#[test]
fn a_part_is_copied_out(rt: HostRuntime) -> Result<(), Fail> {
    let part = Part::new(&[1, 2, 3], 2);
    let mut copy = [0; 5];
    part.copy_to(&mut copy);
    equal(&rt, copy, [1, 2, 3, 0xFF, 0xFF]);
    let mut out = Vec::with_capacity(rt.alloc(), 7)?;
    part.slice(2, 2).put_onto(&mut out);
    part.put_onto(&mut out);
    expect(
        &rt,
        out.as_slice() == [3, 0xFF, 1, 2, 3, 0xFF, 0xFF].as_slice(),
    );
    Ok(())
}
