//! What is not scanned, and the texts of faults.

use crate::checks::equal;
use byteorder::BigEndian;
use jscan::{
    GREATEST_BLOCK, GREATEST_IMAGE, Geometry, LEAST_BLOCK, ScanFault, Sightings, StreamFault, scan,
    scan_to_refusal,
};
use std::alloc::Global;
use std::test::Fail;

type Faults = [Option<ScanFault>; 3];

/// Why an image is not scanned to a refusal, not scanned, and has no sightings.
fn faults(alloc: Global, image: &[u8], block: u32) -> Faults {
    let geometry = Geometry { block };
    [
        scan_to_refusal::<BigEndian>(alloc, image, geometry).err(),
        scan::<BigEndian>(alloc, image, geometry).err(),
        Sightings::<BigEndian>::new(image, geometry).err(),
    ]
}

/// One byte more than is scanned.
fn long_image(alloc: Global) -> Result<Vec<u8>, Fail> {
    let mebibyte = vec![in alloc; 0u8; 1_048_576]?;
    let mut bytes = Vec::with_capacity(alloc, GREATEST_IMAGE + 1)?;
    for _ in 0..256 {
        bytes.extend_from_slice(&mebibyte)?;
    }
    bytes.push(0)?;
    Ok(bytes)
}

#[test]
fn images_that_are_not_scanned(rt: HostRuntime) -> Result<(), Fail> {
    let long = long_image(rt.alloc())?;
    for block in [0, 4092, 4098, 4_194_308] {
        let found = faults(rt.alloc(), &[], block);
        equal(&rt, found, [Some(ScanFault::BlockSize); 3]);
    }
    for (block, fault) in [(4095, ScanFault::BlockSize), (4096, ScanFault::TooLarge)] {
        equal(&rt, faults(rt.alloc(), &long, block), [Some(fault); 3]);
    }
    equal(
        &rt,
        (LEAST_BLOCK, GREATEST_BLOCK, GREATEST_IMAGE),
        (4096, 4_194_304, 268_435_456),
    );
    Ok(())
}

fn scan_faults() -> &'static [(ScanFault, &'static str)] {
    &[
        (ScanFault::BlockSize, "C1 BlockSize"),
        (ScanFault::TooLarge, "C2 TooLarge"),
        (
            ScanFault::Incompatible {
                addr: 12,
                nodetype: 0xe0f7,
            },
            "C3 Incompatible at 0000000c type e0f7",
        ),
        (
            ScanFault::Compressed { addr: 80, compr: 6 },
            "C4 Compressed at 00000050 compr 6",
        ),
        (ScanFault::OutOfMemory, "C5 OutOfMemory"),
    ]
}

fn stream_faults() -> &'static [(StreamFault, &'static str)] {
    &[
        (StreamFault::BlockSize, "C1 BlockSize"),
        (StreamFault::Device, "L1 Device"),
        (StreamFault::TooLarge, "L2 TooLarge"),
        (StreamFault::OutOfMemory, "L3 OutOfMemory"),
    ]
}

#[test]
fn texts_of_faults(rt: HostRuntime) -> Result<(), Fail> {
    for &(fault, text) in scan_faults() {
        equal(&rt, format!(in rt.alloc(); "{fault}")?.as_str(), text);
    }
    for &(fault, text) in stream_faults() {
        equal(&rt, format!(in rt.alloc(); "{fault}")?.as_str(), text);
    }
    Ok(())
}
