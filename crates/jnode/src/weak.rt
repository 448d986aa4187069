//! The least cut of a written node that no check shows.

ghost use Rattle.std.specs.Prelude.{◌≡◌, ◌↔◌, ◌+◌, ◌<◌, ◌≤◌, IsTrue, IfSome, length, drop};
ghost use Rattle.jnode.specs.Tails.{IsTailFrom};
ghost use Rattle.jnode.specs.Weak.{torn, is_weak, is_sound, IsLeastWeak, IsWrittenForm, IsLeastHidden, stored_at};

use crate::header::{front_of, is_good_front};
use crate::layout::{TOTLEN_MOST, entry, header, inode, nodetype};
use crate::node::Seen;
use crate::order::{Order, u16_at, whole};
use crate::reading::read_part;
use crate::undo::{pop_byte, pop_four};
use flashbase::{Part, erased_run, pad4};

/// What a walk from the last byte to the first knows of the bytes behind a place.
#[derive(Clone, Copy)]
struct Tail {
    /// The difference (by exclusive or) of two remainders: one before these bytes, one before as
    /// many erased bytes, that end in the same remainder. Where it is 0, a cut at the place leaves
    /// the checksum as it was.
    gap: u32,
    /// Whether one of these bytes is not an erased one.
    differs: bool,
    /// The least cut from the place on that changes the bytes and not their checksum.
    least: Option<usize>,
}

/// What is known with the byte at this place, by what is known of those behind it.
fn with_byte(bytes: &[u8], place: usize, tail: Tail) -> Tail
    requires within { place < length bytes.now }
    requires behind { IsTailFrom bytes.now (place + 1) tail }
    ensures { IsTailFrom bytes.now place result }
{
    let byte = bytes[place];
    let gap = pop_byte(tail.gap) ^ u32::from(byte ^ 0xFF);
    let differs = tail.differs || byte != 0xFF;
    let least = if differs && gap == 0 {
        Some(place)
    } else {
        tail.least
    };
    Tail {
        gap,
        differs,
        least,
    }
}

/// The same with the four bytes from this place on, one after the other.
fn with_each_of_four(bytes: &[u8], place: usize, tail: Tail) -> Tail
    requires within { place + 4 ≤ length bytes.now }
    requires behind { IsTailFrom bytes.now (place + 4) tail }
    ensures { IsTailFrom bytes.now place result }
{
    let tail = with_byte(bytes, place + 3, tail);
    let tail = with_byte(bytes, place + 2, tail);
    let tail = with_byte(bytes, place + 1, tail);
    with_byte(bytes, place, tail)
}

/// The same with the four bytes from this place on, at once where no cut within them is hidden. A
/// gap that is 0 at one of these places has at most three bytes of bits at the first of them, so a
/// wider one shows that there is none.
fn with_four(bytes: &[u8], place: usize, tail: Tail) -> Tail
    requires within { place + 4 ≤ length bytes.now }
    requires behind { IsTailFrom bytes.now (place + 4) tail }
    ensures { IsTailFrom bytes.now place result }
{
    let other = u32::from_le_bytes([
        bytes[place] ^ 0xFF,
        bytes[place + 1] ^ 0xFF,
        bytes[place + 2] ^ 0xFF,
        bytes[place + 3] ^ 0xFF,
    ]);
    let gap = pop_four(tail.gap) ^ other;
    if gap < 0x0100_0000 {
        return with_each_of_four(bytes, place, tail);
    }
    Tail {
        gap,
        differs: true,
        least: tail.least,
    }
}

/// The least cut of these bytes that changes them and not their checksum: one pass, from the last
/// byte to the first.
fn least_hidden(bytes: &[u8]) -> Option<usize>
    ensures least { IsLeastHidden bytes.now result }
    ensures within { IfSome result (λ cut. cut < length bytes.now) }
{
    let mut tail = Tail {
        gap: 0,
        differs: false,
        least: None,
    };
    let mut place = bytes.len();
    while place >= 4 {
        place -= 4;
        tail = with_four(bytes, place, tail);
    }
    while place > 0 {
        place -= 1;
        tail = with_byte(bytes, place, tail);
    }
    tail.least
}

/// Whether a node is seen that is sound by its checks.
fn is_sound(seen: &Seen<'_>) -> bool
    ensures { result ≡ is_sound seen.now }
{
    matches!(
        seen,
        Seen::Entry(_) | Seen::Inode(_) | Seen::Compressed { .. }
    )
}

/// Whether a cut inside the node changes its bytes.
fn is_changed(bytes: &[u8], cut: usize) -> bool
    requires { cut ≤ length bytes.now }
    ensures { IsTrue result ↔ (torn bytes.now cut ≡ bytes.now → ⊥) }
{
    erased_run(&bytes[cut..]) < bytes.len() - cut
}

/// Whether the checks do not show a cut, by reading what it leaves.
fn is_weak_at<E: Order>(bytes: &[u8], cut: usize) -> bool
    requires written { IsWrittenForm E.order bytes.now }
    requires within { cut ≤ length bytes.now }
    ensures { result ≡ is_weak E.order bytes.now cut }
{
    if !is_changed(bytes, cut) {
        return false;
    }
    let size = pad4(bytes.len() as u32) as usize;
    let left = Part::new(&bytes[..cut], size - cut);
    let front = front_of(&left);
    if front == front_of(&whole(bytes)) {
        is_sound(&read_part::<E>(&left))
    } else {
        is_good_front::<E>(&front, TOTLEN_MOST)
    }
}

/// Where the bytes of an entry's name or of an inode node's data begin.
fn stored_at<E: Order>(bytes: &[u8]) -> usize
    requires { IsWrittenForm E.order bytes.now }
    ensures place { result ≡ stored_at E.order bytes.now }
    ensures within { result ≤ length bytes.now }
{
    if u16_at::<E>(bytes, header::NODETYPE) == nodetype::INODE {
        inode::LEN
    } else {
        entry::LEN
    }
}

/// The least weak cut of an entry or inode node, compressed or not, or `None` where it has none: how
/// many of its bytes are on the flash when power fails, so that what is left of it differs from it
/// and no check shows that. What is left is these bytes and then 0xFF; the checks show it unless its
/// header is the node's and all its checksums are right, or its header is another one with a right
/// checksum and length.
///
/// `bytes` is the node as `write_entry`, `write_inode` or `write_compressed` wrote it, without
/// padding. It takes no memory, and time proportional to the length.
pub fn weak_cut<E: Order>(bytes: &[u8]) -> Option<usize>
    requires { IsWrittenForm E.order bytes.now }
    ensures { IsLeastWeak E.order bytes.now result }
{
    let front = stored_at::<E>(bytes);
    for cut in 0..front {
        if is_weak_at::<E>(bytes, cut) {
            return Some(cut);
        }
    }
    match least_hidden(&bytes[front..]) {
        Some(hidden) => Some(front + hidden),
        None => None,
    }
}
