//! The byte order of an image, and numbers in it.

ghost use Rattle.std.specs.Prelude.{◌≡◌, ◌≤◌, ◌+◌, ◌<◌, ℕ, List, length, slice_index};
ghost use Rattle.jnode.specs.Order.{number_in, bytes_in, number_at, little_numbers, big_numbers, little_spelled, big_spelled};

use byteorder::{BigEndian, ByteOrder, LittleEndian};
use flashbase::Part;

/// The two byte orders.
#[derive(Clone, Copy, Debug, PartialEq, Eq)]
pub enum Endian {
    Little,
    Big,
}

/// A byte order whose numbers are the little or the big ones.
pub trait Order: ByteOrder {
    ghost use Rattle.jnode.specs.declared.order.Endian.{Endian};

    /// Which of the two orders this is.
    ghost order: { Endian };

    ghost numbers: { (n : ℕ) (bytes : List ℕ) → Self.number_of n bytes ≡ number_in order n bytes };

    ghost spelled: { (n x : ℕ) → Self.bytes_of n x ≡ bytes_in order n x };
}

impl Order for LittleEndian {
    ghost use Rattle.jnode.specs.declared.order.Endian.TheVariants.{Little};

    ghost order = { Little };

    ghost numbers = { little_numbers };

    ghost spelled = { little_spelled };
}

impl Order for BigEndian {
    ghost use Rattle.jnode.specs.declared.order.Endian.TheVariants.{Big};

    ghost order = { Big };

    ghost numbers = { big_numbers };

    ghost spelled = { big_spelled };
}

/// The 16-bit number at a place.
pub(crate) fn u16_at<E: Order>(bytes: &[u8], place: usize) -> u16
    requires { place + 2 ≤ length bytes.now }
    ensures { result ≡ number_at E.order 2 place bytes.now }
{
    E::read_u16(&bytes[place..])
}

/// The 32-bit number at a place.
pub(crate) fn u32_at<E: Order>(bytes: &[u8], place: usize) -> u32
    requires { place + 4 ≤ length bytes.now }
    ensures { result ≡ number_at E.order 4 place bytes.now }
{
    E::read_u32(&bytes[place..])
}

/// The bytes of a 16-bit number.
pub(crate) fn u16_bytes<E: Order>(n: u16) -> [u8; 2]
    ensures { result ≡ bytes_in E.order 2 n }
{
    let mut bytes = [0; 2];
    E::write_u16(&mut bytes, n);
    bytes
}

/// The bytes of a 32-bit number.
pub(crate) fn u32_bytes<E: Order>(n: u32) -> [u8; 4]
    ensures { result ≡ bytes_in E.order 4 n }
{
    let mut bytes = [0; 4];
    E::write_u32(&mut bytes, n);
    bytes
}

/// A part that is there as a whole.
#[tactic(auto, using(crate::proofs::OrderLemmas::append_none))]
pub(crate) fn whole(bytes: &[u8]) -> Part<'_>
    ensures { result ≡ bytes.now }
{
    Part::new(bytes, 0)
}

/// The byte at a place of a part.
pub(crate) fn byte_in(part: &Part<'_>, place: usize) -> u8
    requires { place < length part.now }
    ensures { result ≡ slice_index part.now place }
{
    part.get(place).unwrap_or(0xFF)
}

/// The 16-bit number at a place of a part.
#[tactic(auto, using(crate::proofs::OrderLemmas::number_of_two))]
pub(crate) fn u16_in<E: Order>(part: &Part<'_>, place: usize) -> u16
    requires { place + 2 ≤ length part.now }
    ensures { result ≡ number_at E.order 2 place part.now }
{
    let two = part.slice(place, 2);
    u16_at::<E>(&[byte_in(&two, 0), byte_in(&two, 1)], 0)
}

/// The 32-bit number at a place of a part.
#[tactic(auto, using(crate::proofs::OrderLemmas::number_of_four))]
pub(crate) fn u32_in<E: Order>(part: &Part<'_>, place: usize) -> u32
    requires { place + 4 ≤ length part.now }
    ensures { result ≡ number_at E.order 4 place part.now }
{
    let four = part.slice(place, 4);
    let bytes = [
        byte_in(&four, 0),
        byte_in(&four, 1),
        byte_in(&four, 2),
        byte_in(&four, 3),
    ];
    u32_at::<E>(&bytes, 0)
}
