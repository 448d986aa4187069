//! The header that each node begins with.

ghost use Rattle.std.specs.Prelude.{◌≡◌, ◌≤◌, ◌↔◌, length, take, IsSome, IfSome};
ghost use Rattle.jnode.specs.Header.{header_len, IsGood, header_crc_of, header_of, header_at, has_header, is_good_front, header_by_front, is_accurate};

use crate::layout::{ACCURATE, MAGIC, header};
use crate::order::{Order, byte_in, u16_at, u16_bytes, u32_at};
use flashbase::{Part, crc, crc_from};

/// What the header of a node says: its type, its length in bytes with the header, and whether the
/// type's bit ACCURATE is set, which it is until the node is made obsolete.
#[derive(Clone, Copy, Debug, PartialEq, Eq)]
pub struct Header {
    pub nodetype: u16,
    pub totlen: u32,
    pub accurate: bool,
}

/// Whether a node of this type is not obsolete.
pub(crate) fn is_accurate(nodetype: u16) -> bool
    ensures { result ≡ is_accurate nodetype }
{
    nodetype & ACCURATE == ACCURATE
}

/// The checksum of the header's first 8 bytes, taken with the bit ACCURATE set, so that a node that
/// is made obsolete keeps its hdr_crc.
#[tactic(auto, using(flashbase::proofs::CrcLemmas::crc_goes_on), unfolding(crate::specs::Header::header_crc_of))]
fn header_crc<E: Order>(front: &[u8]) -> u32
    requires { header_len ≤ length front.now }
    ensures { result ≡ header_crc_of E.order front.now }
{
    let kind = u16_bytes::<E>(u16_at::<E>(front, header::NODETYPE) | ACCURATE);
    crc_from(
        crc_from(crc(&front[..header::NODETYPE]), &kind),
        &front[header::TOTLEN..header::HDR_CRC],
    )
}

#[tactic(auto, unfolding(crate::specs::Header::has_header))]
fn has_header<E: Order>(front: &[u8]) -> bool
    requires { header_len ≤ length front.now }
    ensures { result ≡ has_header E.order front.now }
{
    u16_at::<E>(front, header::MAGIC) == MAGIC
        && u32_at::<E>(front, header::HDR_CRC) == header_crc::<E>(front)
}

/// Whether there is a good header in the front of `len` bytes.
#[tactic(auto, unfolding(crate::specs::Header::is_good_front))]
pub(crate) fn is_good_front<E: Order>(front: &[u8], len: usize) -> bool
    requires { header_len ≤ length front.now }
    ensures { result ≡ is_good_front E.order front.now len }
{
    let totlen = u32_at::<E>(front, header::TOTLEN) as usize;
    has_header::<E>(front) && header::LEN <= totlen && totlen <= len
}

/// The good header in the front of `len` bytes.
fn header_by_front<E: Order>(front: &[u8], len: usize) -> Option<Header>
    requires { header_len ≤ length front.now }
    ensures { result ≡ header_by_front E.order front.now len }
{
    if !is_good_front::<E>(front, len) {
        return None;
    }
    let nodetype = u16_at::<E>(front, header::NODETYPE);
    Some(Header {
        nodetype,
        totlen: u32_at::<E>(front, header::TOTLEN),
        accurate: is_accurate(nodetype),
    })
}

/// The bytes of a header at the start of a part.
pub(crate) fn front_of(rest: &Part<'_>) -> [u8; header::LEN]
    requires { header_len ≤ length rest.now }
    ensures { result ≡ take header_len rest.now }
{
    let mut front = [0; header::LEN];
    for i in 0..header::LEN {
        front[i] = byte_in(rest, i);
    }
    front
}

/// The good header at the start of the rest of a block. Good is a header of right magic and hdr_crc
/// whose node has at least its header and does not pass the block's end.
pub fn header_at<E: Order>(rest: &[u8]) -> Option<Header>
    ensures good { IsSome result ↔ IsGood E.order rest.now }
    ensures fields { IfSome result (λ header. header ≡ header_of E.order rest.now) }
    ensures exact { result ≡ header_at E.order rest.now }
{
    if rest.len() < header::LEN {
        None
    } else {
        header_by_front::<E>(rest, rest.len())
    }
}

/// The good header at the start of a part, the rest of a block.
pub fn header_in<E: Order>(rest: &Part<'_>) -> Option<Header>
    ensures good { IsSome result ↔ IsGood E.order rest.now }
    ensures fields { IfSome result (λ header. header ≡ header_of E.order rest.now) }
    ensures exact { result ≡ header_at E.order rest.now }
{
    if rest.len() < header::LEN {
        None
    } else {
        header_by_front::<E>(&front_of(rest), rest.len())
    }
}
