//! Devices: their kinds, and their numbers as nodes have them.

ghost use Rattle.std.specs.Prelude.{◌≡◌, ◌≤◌, length};
ghost use Rattle.jnode.specs.Order.{bytes_in};
ghost use Rattle.jsteps.specs.Device.{device_mode, device_number};

use jnode::Order;
use std::marker::Model;

/// The kind of a device.
#[derive(Clone, Copy, Debug, PartialEq, Eq)]
pub enum DeviceKind {
    Character,
    Block,
}

impl DeviceKind {
    /// The mode of this kind, without permissions.
    pub fn mode(self) -> u32
        ensures { result ≡ device_mode self }
    {
        match self {
            DeviceKind::Character => 0o020000,
            DeviceKind::Block => 0o060000,
        }
    }
}

/// The bytes of a number.
#[derive(Drop)]
enum Bytes {
    Two([u8; 2]),
    Four([u8; 4]),
}

/// The bytes of an old number.
fn two_bytes<E: Order>(n: u16) -> [u8; 2]
    ensures { result ≡ bytes_in E.order 2 n }
{
    let mut bytes = [0; 2];
    E::write_u16(&mut bytes, n);
    bytes
}

/// The bytes of a new number.
fn four_bytes<E: Order>(n: u32) -> [u8; 4]
    ensures { result ≡ bytes_in E.order 4 n }
{
    let mut bytes = [0; 4];
    E::write_u32(&mut bytes, n);
    bytes
}

/// A device's number: the bytes that its node has, seen as one list.
#[derive(Drop)]
pub struct DeviceNumber {
    bytes: Bytes,
}

impl Model for DeviceNumber {
    ghost use Rattle.std.specs.Prelude.{List, ℕ, ◌≤◌, length};
    ghost use Rattle.jsteps.specs.Device.{number_bytes};

    ghost Value = { List ℕ };

    ghost view = { λ n. number_bytes n.bytes };

    ghost invariant = { λ n. length (number_bytes n.bytes) ≤ 4 };
}

impl DeviceNumber {
    /// The number of a major and a minor one in `E`'s order: two bytes where both are at most 255,
    /// else four, which hold the low 12 bits of the major and 20 of the minor one.
    pub fn new<E: Order>(major: u16, minor: u32) -> DeviceNumber
        ensures { result ≡ device_number E.order major minor }
    {
        if major <= 255 && minor <= 255 {
            return DeviceNumber {
                bytes: Bytes::Two(two_bytes::<E>(major * 256 + minor as u16)),
            };
        }
        let low = minor % 256 + u32::from(major % 4096) * 256;
        DeviceNumber {
            bytes: Bytes::Four(four_bytes::<E>(low + minor / 256 % 4096 * 1048576)),
        }
    }

    /// The number of bytes, two or four.
    pub fn len(&self) -> usize
        ensures bytes { result ≡ length self.now }
        ensures few { result ≤ 4 }
    {
        let _ = &self.bytes;
        self.as_slice().len()
    }

    /// The bytes.
    pub fn as_slice(&self) -> &[u8]
        ensures { result.now ≡ self.now }
    {
        match &self.bytes {
            Bytes::Two(bytes) => bytes,
            Bytes::Four(bytes) => bytes,
        }
    }
}
