//! Pieces of the worked example, and what an overlay shows.
ghost use Rattle.std.specs.Prelude.{◌≡◌, ◌+◌, ◌<◌, ◌^◌, length};
ghost use Rattle.jfrag.specs.Pieces.{end_of};

use flashbase::Part;
use jfrag::{Body, Overlay, Piece};

/// The bytes of each version: a file's byte tells which piece gave it.
const ONES: &[u8] = &[11; 100];

const TWOS: &[u8] = &[22; 10];

const THREES: &[u8] = &[33; 10];

/// Version 3 over 0 to 9, version 2 over 50 to 59, version 1 over 0 to 99.
pub(crate) fn worked_piece(version: u32) -> Piece<'static>
    ensures { end_of result < 2 ^ 32 }
{
    let (offset, bytes) = match version {
        3 => (0, THREES),
        2 => (50, TWOS),
        _ => (0, ONES),
    };
    bytes_at(version, offset, bytes)
}

pub(crate) fn bytes_at(version: u32, offset: u32, bytes: &'static [u8]) -> Piece<'static>
    requires { offset + length bytes.now < 2 ^ 32 }
    ensures { end_of result ≡ offset + length bytes.now }
{
    Piece {
        version,
        offset,
        body: Body::Bytes(Part::new(bytes, 0)),
    }
}

pub(crate) fn fifty_ones(version: u32, offset: u32) -> Piece<'static>
    requires { offset < 1000 }
    ensures { end_of result < 2 ^ 32 }
{
    bytes_at(version, offset, &ONES[..50])
}

pub(crate) fn zeros_at(version: u32, offset: u32, count: u32) -> Piece<'static>
    ensures { end_of result ≡ offset + count }
{
    Piece {
        version,
        offset,
        body: Body::Zero(count),
    }
}

/// Bytes 0 to 9 of version 3, 10 to 49 of version 1, 50 to 59 of version 2, 60 to 99 of version 1,
/// then 0.
pub(crate) fn worked_bytes() -> [u8; 101] {
    let mut bytes = [0u8; 101];
    bytes[..100].fill(11);
    bytes[..10].fill(33);
    bytes[50..60].fill(22);
    bytes
}

pub(crate) fn first_bytes<'a, O: Overlay<'a>>(overlaid: &O) -> [u8; 101] {
    let mut bytes = [9u8; 101];
    overlaid.read_at(0, &mut bytes);
    bytes
}

pub(crate) fn byte_at<'a, O: Overlay<'a>>(overlaid: &O, place: u64) -> u8 {
    let mut byte = [9u8; 1];
    overlaid.read_at(place, &mut byte);
    byte[0]
}
