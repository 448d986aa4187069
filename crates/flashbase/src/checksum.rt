//! The checksum of JFFS2: `crc32(0, ..)` of the Linux kernel, as include/uapi/linux/jffs2.h uses
//! it.

ghost use Rattle.std.specs.Prelude.{◌≡◌, ◌≤◌, ◌++◌, length, replicate};
ghost use Rattle.std.specs.Int.{w64, to_le_bytes};
ghost use Rattle.flashbase.specs.Crc.{crc_after, crc_of, push_byte};

use crate::tables::table_entry;

/// The checksum of the bytes: the reflected 32-bit remainder by the polynomial 0xEDB88320, which
/// starts at 0 and is not changed at the end.
pub fn crc(bytes: &[u8]) -> u32
    ensures { result ≡ crc_of bytes.now }
{
    crc_from(0, bytes)
}

/// The checksum that was `start`, continued by the bytes: `crc_from(crc(a), b)` is that of `a` and
/// then `b`.
pub fn crc_from(start: u32, bytes: &[u8]) -> u32
    ensures { result ≡ crc_after start bytes.now }
{
    let (whole, rest) = bytes.as_chunks::<16>();
    let mut remainder = start;
    for chunk in whole {
        remainder = push_sixteen(remainder, chunk);
    }
    push_short(remainder, rest)
}

/// Sixteen bytes more.
fn push_sixteen(remainder: u32, bytes: &[u8; 16]) -> u32
    ensures { result ≡ crc_after remainder bytes.now }
{
    let (halves, _) = bytes.as_chunks::<8>();
    let first = u64::from(remainder) ^ u64::from_le_bytes(halves[0]);
    share_of_eight(u64::from_le_bytes(halves[1]), 0) ^ share_of_eight(first, 8)
}

/// The bytes by eight, and those that are left one by one.
fn push_short(start: u32, bytes: &[u8]) -> u32
    ensures { result ≡ crc_after start bytes.now }
{
    let (whole, rest) = bytes.as_chunks::<8>();
    let mut remainder = start;
    for chunk in whole {
        remainder = push_eight(remainder, chunk);
    }
    push_each(remainder, rest)
}

/// Eight bytes more.
fn push_eight(remainder: u32, bytes: &[u8; 8]) -> u32
    ensures { result ≡ crc_after remainder bytes.now }
{
    share_of_eight(u64::from(remainder) ^ u64::from_le_bytes(*bytes), 0)
}

/// The checksum of the eight bytes of a word, the lowest first, and then `zeros` bytes 0. The last
/// bytes are looked up first: the remainder goes into the first ones, and the others need not wait
/// for it.
fn share_of_eight(word: u64, zeros: usize) -> u32
    requires { zeros ≤ 8 }
    ensures { result ≡ crc_of (to_le_bytes w64 word ++ replicate zeros 0) }
{
    let [a, b, c, d, e, f, g, h] = word.to_le_bytes();
    table_entry(h, zeros)
        ^ table_entry(g, zeros + 1)
        ^ table_entry(f, zeros + 2)
        ^ table_entry(e, zeros + 3)
        ^ table_entry(d, zeros + 4)
        ^ table_entry(c, zeros + 5)
        ^ table_entry(b, zeros + 6)
        ^ table_entry(a, zeros + 7)
}

/// The bytes one by one.
#[tactic(auto, unfolding(crate::specs::Crc::crc_after))]
fn push_each(start: u32, bytes: &[u8]) -> u32
    ensures { result ≡ crc_after start bytes.now }
{
    bytes
        .iter()
        .fold(start, |remainder, byte| push_byte(remainder, *byte))
}

/// A byte more.
#[tactic(auto, using(crate::proofs::CrcLemmas::push_byte_by_table))]
fn push_byte(remainder: u32, byte: u8) -> u32
    ensures { result ≡ push_byte remainder byte }
{
    let low = (remainder % 256) as u8;
    (remainder / 256) ^ table_entry(low ^ byte, 0)
}
