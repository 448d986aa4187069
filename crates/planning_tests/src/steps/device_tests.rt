//! Devices: their kinds and their numbers.

use crate::checks::equal;
use byteorder::{BigEndian, LittleEndian};
use jsteps::{DeviceKind, DeviceNumber};

#[test]
fn kinds_have_modes(rt: HostRuntime) {
    equal(&rt, DeviceKind::Character.mode(), 0o020000);
    equal(&rt, DeviceKind::Block.mode(), 0o060000);
}

/// Numbers, each with its bytes in little and in big order, as Linux writes them
/// (fs/jffs2/nodelist.h, jffs2_encode_dev).
fn numbers() -> &'static [(u16, u32, &'static [u8], &'static [u8])] {
    &[
        (0, 0, &[0, 0], &[0, 0]),
        (4, 1, &[1, 4], &[4, 1]),
        (255, 255, &[255, 255], &[255, 255]),
        (256, 0, &[0, 0, 1, 0], &[0, 1, 0, 0]),
        (0, 256, &[0, 0, 16, 0], &[0, 16, 0, 0]),
        (259, 65537, &[1, 3, 1, 16], &[16, 1, 3, 1]),
        (
            300,
            70000,
            &[0x70, 0x2c, 0x11, 0x11],
            &[0x11, 0x11, 0x2c, 0x70],
        ),
        (4095, 1048575, &[255, 255, 255, 255], &[255, 255, 255, 255]),
    ]
}

#[test]
fn numbers_have_bytes_in_both_orders(rt: HostRuntime) {
    for &(major, minor, wanted, swapped) in numbers() {
        let little = DeviceNumber::new::<LittleEndian>(major, minor);
        let big = DeviceNumber::new::<BigEndian>(major, minor);
        equal(&rt, little.as_slice(), wanted);
        equal(&rt, (little.len(), big.len()), (wanted.len(), wanted.len()));
        equal(&rt, big.as_slice(), swapped);
    }
}
