//! Images that are compressed.

use crate::checks::{equal, expect};
use crate::convert::converting::BLOCKS_OF_8_KIB;
use crate::convert::vectors::*;
use byteorder::{BigEndian, LittleEndian};
use jconvert::{ConvertFault, compress, decompressed, judge, judge_plain, write_packed};
use jnode::Order;
use jscan::Geometry;
use std::alloc::Global;
use std::process::Abort;
use std::test::Fail;
use test_support::{Attributes, FILE, Node, SYMLINK, Taker, image_of_nodes};

/// Compresses an image; what goes out is decompressed to what went in.
fn is_given_back<E: Order>(
    rt: &impl Abort,
    alloc: Global,
    image: &[u8],
    geometry: Geometry,
    changed: u64,
    nodes: u64,
) -> u64 {
    let sink = Taker::new(alloc);
    let Ok((sink, told)) = compress::<E, Taker>(alloc, image, geometry, sink) else {
        panic!(rt; "refused");
    };
    equal(rt, (told.changed, told.nodes), (changed, nodes));
    equal(rt, told.bytes, sink.bytes.len() as u64);
    let Ok(judged) = judge::<E>(alloc, &sink.bytes, geometry, 0) else {
        panic!(rt; "refused again");
    };
    equal(rt, judged.told.changed, changed);
    let back = decompressed::<E>(alloc, &sink.bytes, geometry);
    let plain = decompressed::<E>(alloc, image, geometry);
    expect(rt, back.is_ok() && back == plain);
    told.bytes
}

/// What goes out is shorter.
#[test]
fn images_are_compressed(rt: HostRuntime) {
    let little = is_given_back::<LittleEndian>(
        &rt,
        rt.alloc(),
        little_expanded(),
        BLOCKS_OF_8_KIB,
        4,
        9,
    );
    expect(&rt, little < 728);
    let big = is_given_back::<BigEndian>(&rt, rt.alloc(), big_expanded(), BLOCKS_OF_8_KIB, 4, 9);
    equal(&rt, big, little);
}

const ATTRIBUTES: Attributes = Attributes {
    uid: 5,
    gid: 6,
    atime: 7,
    mtime: 8,
};

const SAME: &[u8] = &[0x61; 200];

/// Of 200 equal bytes a regular file's alone are compressed, and a few are not, since that is no
/// shorter: nodes, how many change, and how many bytes go out.
fn nodes() -> &'static [(&'static Node<'static>, u64, u64)] {
    &[
        (&Node::Inode(2, FILE, SAME), 1, 92),
        (&Node::Inode(2, 0o100_755, SAME), 1, 92),
        (&Node::Inode(2, SYMLINK, SAME), 0, 280),
        (&Node::Inode(2, 0o020_644, SAME), 0, 280),
        (&Node::Inode(2, FILE, b"abcdefghij"), 0, 92),
        (&Node::Hole(2, 200), 0, 80),
        (&Node::Entry(1, 2, SAME), 0, 252),
    ]
}

#[test]
fn what_is_compressed(rt: HostRuntime) -> Result<(), Fail> {
    for &(node, changed, bytes) in nodes() {
        let image = image_of_nodes::<LittleEndian>(rt.alloc(), &[*node], ATTRIBUTES)?;
        let out = is_given_back::<LittleEndian>(
            &rt,
            rt.alloc(),
            &image,
            BLOCKS_OF_8_KIB,
            changed,
            1,
        );
        equal(&rt, out, bytes);
    }
    Ok(())
}

const BLOCKS_OF_64_KIB: Geometry = Geometry { block: 65_536 };

const LONG: &[u8] = &[0x61; 32_769];

/// Numbers of equal bytes, how many nodes of them change, and the most bytes that go out. Of 32,768
/// Python's `zlib` makes 53, which fill 56; of more nothing is made.
fn lengths() -> &'static [(usize, u64, u64)] {
    &[
        (2048, 1, 136),
        (2049, 1, 136),
        (32_768, 1, 136),
        (32_769, 0, 32_852),
    ]
}

#[test]
fn how_much_is_compressed(rt: HostRuntime) -> Result<(), Fail> {
    for &(length, changed, most) in lengths() {
        let node = Node::Inode(2, FILE, LONG.get(..length).unwrap_or(&[]));
        let image = image_of_nodes::<LittleEndian>(rt.alloc(), &[node], ATTRIBUTES)?;
        let out = is_given_back::<LittleEndian>(
            &rt,
            rt.alloc(),
            &image,
            BLOCKS_OF_64_KIB,
            changed,
            1,
        );
        expect(&rt, out <= most);
        expect(&rt, changed == 1 || out == most);
    }
    Ok(())
}

fn is_refused(
    rt: &impl Abort,
    alloc: Global,
    image: &[u8],
    block: u32,
    text: &str,
) -> Result<(), Fail> {
    let geometry = Geometry { block };
    let Err(fault) = judge_plain::<LittleEndian>(alloc, image, geometry) else {
        panic!(rt; "not refused");
    };
    equal(rt, format!(in alloc; "{fault}")?.as_str(), text);
    let sink = Taker::new(alloc);
    let Err((same, Some(back))) = compress::<LittleEndian, Taker>(alloc, image, geometry, sink)
    else {
        panic!(rt; "not refused");
    };
    equal(rt, same, fault);
    expect(rt, back.took(0, &[]));
    Ok(())
}

/// Images, their block sizes, and the texts of their faults.
fn refused() -> &'static [(Image, u32, &'static str)] {
    &[
        (Image::Little, 4095, "M1 BlockSize"),
        (Image::Little, 8192, "M4 Compressed at 000000e0 compr 6"),
        (Image::NoContent, 8192, "M4 Compressed at 0000000c compr 2"),
        (
            Image::UnreadMethod,
            8192,
            "M4 Compressed at 0000000c compr 5",
        ),
        (Image::ReadOnly, 8192, "S3 ReadOnly"),
        (Image::ReadOnly, 4096, "S3 ReadOnly"),
        (Image::LittleExpanded, 4096, "S7 Geometry"),
    ]
}

/// A compressed node is refused, whatever its method and its data.
#[test]
fn images_are_not_compressed(rt: HostRuntime) -> Result<(), Fail> {
    for &(image, block, text) in refused() {
        is_refused(&rt, rt.alloc(), image.bytes(), block, text)?;
    }
    Ok(())
}

/// A sink that fails comes back with a beginning of what goes out.
#[test]
fn sinks_that_fail_at_compressed(rt: HostRuntime) {
    let image = little_expanded();
    let Ok(nodes) = judge_plain::<LittleEndian>(rt.alloc(), image, BLOCKS_OF_8_KIB) else {
        panic!(rt; "refused");
    };
    equal(&rt, nodes, 9);
    let mut whole = Taker::new(rt.alloc());
    let put = write_packed::<LittleEndian, Taker>(rt.alloc(), image, BLOCKS_OF_8_KIB, &mut whole);
    equal(&rt, put, Ok((4, whole.bytes.len() as u64)));
    for limit in [0, 11, 12, 52, 53, 199, 400] {
        let sink = Taker::limited(rt.alloc(), 7, limit);
        match compress::<LittleEndian, Taker>(rt.alloc(), image, BLOCKS_OF_8_KIB, sink) {
            Err((ConvertFault::Sink, Some(back))) => {
                expect(&rt, back.took(1, whole.bytes.get(..limit).unwrap_or(&[])));
            }
            _ => panic!(rt; "no failure at {limit}"),
        }
    }
}
