//! Checksums, padding, erased runs, and the laws of lists.

use crate::checks::{equal, equal_at};
use flashbase::*;

/// The first 8 bytes of the clean marker in little byte order.
const LITTLE_MARKER: &[u8] = &[0x85, 0x19, 0x03, 0x20, 0x0C, 0x00, 0x00, 0x00];

const BIG_MARKER: &[u8] = &[0x19, 0x85, 0x20, 0x03, 0x00, 0x00, 0x00, 0x0C];

/// The 25 bytes of which `FOX_CHECKSUMS` has the checksums.
const FOX: &[u8] = b"the quick brown fox jumps";

/// The checksums of the first 0, 1 .. 25 bytes of `FOX`, by zlib's `crc32`.
const FOX_CHECKSUMS: [u32; 26] = [
    0x0000_0000,
    0x5768_B525,
    0x083A_5598,
    0xC304_B4F4,
    0x817D_1279,
    0x0E5A_F520,
    0x1B0F_FF8E,
    0x3E75_7824,
    0xE886_A14B,
    0x3B86_A669,
    0x0F3B_7F92,
    0xBDB2_C963,
    0x6A0D_923B,
    0x6C6C_987F,
    0x0EB7_E4AA,
    0x9C07_B14D,
    0x339F_1A54,
    0xC8E4_CE9A,
    0xCD1F_E25D,
    0x4BC9_CBA5,
    0x9D99_BE64,
    0xE725_B4B9,
    0x9235_AB2F,
    0x9840_1517,
    0xD34E_B4EE,
    0x8E6D_A14D,
];

/// The bytes 0, 1, 128 and 255 alone are entries of the table that each other implementation has.
#[test]
fn known_values_of_the_checksum(rt: HostRuntime) {
    known_checksums();
    for (bytes, sum) in [
        (b"".as_slice(), 0x0000_0000),
        (b"123456789".as_slice(), 0x2DFD_2D88),
        (b"a".as_slice(), 0x3AB5_51CE),
        (LITTLE_MARKER, 0xE41E_B0B1),
        (BIG_MARKER, 0xF060_DC98),
        (b"\x00".as_slice(), 0x0000_0000),
        (b"\x01".as_slice(), 0x7707_3096),
        (b"\x80".as_slice(), 0xEDB8_8320),
        (b"\xFF".as_slice(), 0x2D02_EF8D),
    ] {
        equal_at(&rt, crc(bytes), sum, bytes);
    }
}

/// Lengths on either side of the chunks that are taken in together, whole and in two parts.
#[test]
fn checksums_of_every_length(rt: HostRuntime) {
    crc_goes_on();
    crc_is_word();
    for n in 0..26usize {
        equal_at(&rt, crc(&FOX[..n]), FOX_CHECKSUMS[n], n);
        equal_at(
            &rt,
            crc_from(FOX_CHECKSUMS[n], &FOX[n..25]),
            FOX_CHECKSUMS[25],
            n,
        );
    }
}

#[test]
fn padding(rt: HostRuntime) {
    known_lengths();
    pad4_is_least();
    for (n, padded) in [
        (0, 0),
        (1, 4),
        (4, 4),
        (41, 44),
        (0xFFFF_FFFC, 0xFFFF_FFFC),
        (0xFFFF_FFFD, 0x1_0000_0000),
        (0xFFFF_FFFF, 0x1_0000_0000),
    ] {
        equal_at(&rt, pad4(n), padded, n);
    }
}

/// Every length on either side of a vector of lanes, and every place of the one byte that is not
/// erased.
#[test]
fn erased_runs(rt: HostRuntime) {
    erased_run_is_longest();
    let mut bytes = [0xFFu8; 130];
    for n in 0..131usize {
        equal(&rt, erased_run(&bytes[..n]), n);
    }
    for at in 0..130usize {
        bytes[at] = 0xFE;
        for n in at + 1..131usize {
            equal_at(&rt, erased_run(&bytes[..n]), at, (at, n));
        }
        bytes[at] = 0xFF;
    }
}

#[test]
fn laws_on_lists(_rt: HostRuntime) {
    below_is_below();
    each_below_is_each::<u8>();
    newest_is_newest::<u8>();
    newest_of_one_more::<u8>();
    get_of_tabled::<u8>();
    greatest_is_greatest();
}
