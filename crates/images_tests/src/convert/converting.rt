//! Images that are decompressed.

use crate::checks::{equal, expect};
use crate::convert::vectors::*;
use byteorder::{BigEndian, LittleEndian};
use jconvert::{ConvertFault, Converted, decompress, decompressed, judge, write_converted};
use jnode::Order;
use jscan::Geometry;
use std::alloc::Global;
use std::process::Abort;
use test_support::Taker;

pub(crate) const BLOCKS_OF_8_KIB: Geometry = Geometry { block: 8192 };

/// What is told of both images.
const TOLD: Converted = Converted {
    changed: 6,
    nodes: 9,
    bytes: 728,
};

fn is_put<E: Order>(rt: &impl Abort, alloc: Global, image: &[u8], wanted: &[u8]) {
    let sink = Taker::new(alloc);
    let Ok((sink, told)) = decompress::<E, Taker>(alloc, image, BLOCKS_OF_8_KIB, sink) else {
        panic!(rt; "refused");
    };
    equal(rt, told, TOLD);
    expect(rt, sink.took(0, wanted));
}

#[test]
fn images_are_decompressed(rt: HostRuntime) {
    is_put::<LittleEndian>(&rt, rt.alloc(), little_image(), little_expanded());
    is_put::<BigEndian>(&rt, rt.alloc(), big_image(), big_expanded());
}

/// The same image in memory. Passes with each allocation failing in turn too: memory is then
/// blamed.
#[test]
fn images_in_memory(rt: HostRuntime) {
    let given = decompressed::<BigEndian>(rt.alloc(), big_image(), BLOCKS_OF_8_KIB);
    match given {
        Ok(bytes) => equal(&rt, bytes.as_slice(), big_expanded()),
        Err(fault) => equal(&rt, fault, ConvertFault::OutOfMemory),
    }
}

/// An image of the profile goes out as it is, up to what is no node of it.
#[test]
fn nothing_is_left_to_decompress(rt: HostRuntime) {
    let again = decompressed::<LittleEndian>(rt.alloc(), little_expanded(), BLOCKS_OF_8_KIB);
    expect(
        &rt,
        again.is_ok_and(|bytes| bytes.as_slice() == little_expanded()),
    );
    let none = decompressed::<LittleEndian>(rt.alloc(), &[], BLOCKS_OF_8_KIB);
    expect(&rt, none.is_ok_and(|bytes| bytes.is_empty()));
}

/// The longest node that a block holds after its marker.
#[test]
fn the_longest_node(rt: HostRuntime) {
    let found = decompressed::<LittleEndian>(rt.alloc(), longest(), BLOCKS_OF_8_KIB);
    expect(&rt, found.is_ok_and(|bytes| bytes.len() == 8192));
}

/// A sink that fails comes back with a beginning of what goes out.
#[test]
fn sinks_that_fail(rt: HostRuntime) {
    let wanted = little_expanded();
    for limit in [0, 11, 12, 52, 53, 199, 727] {
        let sink = Taker::limited(rt.alloc(), 7, limit);
        match decompress::<LittleEndian, Taker>(rt.alloc(), little_image(), BLOCKS_OF_8_KIB, sink) {
            Err((ConvertFault::Sink, Some(back))) => {
                expect(&rt, back.took(1, wanted.get(..limit).unwrap_or(&[])));
            }
            _ => panic!(rt; "no failure at {limit}"),
        }
    }
}

fn is_put_again(rt: &impl Abort, alloc: Global, most: usize, held: usize) {
    let image = little_image();
    let Ok(judged) = judge::<LittleEndian>(alloc, image, BLOCKS_OF_8_KIB, most) else {
        panic!(rt; "refused");
    };
    equal(rt, judged.told, TOLD);
    equal(rt, judged.held.len(), held);
    let mut sink = Taker::new(alloc);
    let held = judged.held.as_slice();
    let put = write_converted::<LittleEndian, Taker>(
        alloc,
        image,
        BLOCKS_OF_8_KIB,
        held,
        &mut sink,
    );
    expect(rt, put.is_ok());
    expect(rt, sink.took(0, little_expanded()));
}

/// How much may be held, and how much is.
fn holdings() -> &'static [(usize, usize)] {
    &[
        (0, 0),
        (59, 0),
        (60, 60),
        (99, 80),
        (100, 100),
        (120, 120),
        (1000, 121),
    ]
}

/// The same goes out, however much is held of what the data stand for: 60, 20, 20, 0, 20 and 1
/// bytes.
#[test]
fn contents_that_are_held(rt: HostRuntime) {
    for &(most, held) in holdings() {
        is_put_again(&rt, rt.alloc(), most, held);
    }
}
