//! The number of a device, as its node has it.

ghost use Rattle.std.specs.Prelude.{◌≡◌, replicate};
ghost use Rattle.jmount.specs.Device.{given_bytes, number_held, device_held, major_and_minor};

use crate::object::DeviceBytes;
use crate::shown::is_device;
use flashbase::Part;
use jnode::{Fill, InodeNode, Order};

impl DeviceBytes {
    /// The major and the minor number, read in `E`'s order.
    pub fn major_and_minor<E: Order>(self) -> (u16, u32)
        ensures { result ≡ major_and_minor E.order self }
    {
        match self {
            DeviceBytes::Two(bytes) => {
                let n = E::read_u16(&bytes);
                (n / 256, u32::from(n % 256))
            }
            DeviceBytes::Four(bytes) => {
                let n = E::read_u32(&bytes);
                ((n / 256 % 4096) as u16, n % 256 + n / 1048576 * 256)
            }
        }
    }
}

/// The number of an object whose newest node this is.
pub fn device_of(node: &InodeNode<'_>) -> Option<DeviceBytes>
    ensures { result ≡ device_held node.now.mode (given_bytes node.now.dsize node.now.fill) }
{
    match &node.fill {
        Fill::Zero => device_of_zeros(node.mode, node.dsize),
        Fill::Data(bytes) => device_held(node.mode, bytes),
    }
}

/// The number of an object of this mode, whose newest node has so many zeros.
#[tactic(auto, unfolding(crate::specs::Device::device_held))]
fn device_of_zeros(mode: u32, count: u32) -> Option<DeviceBytes>
    ensures { result ≡ device_held mode (replicate count 0) }
{
    if !is_device(mode) {
        return None;
    }
    number_of_zeros(count)
}

/// The number of an object of this mode, whose newest node has these data: none, if it is no device,
/// or they are neither two bytes nor four.
#[tactic(auto, unfolding(crate::specs::Device::device_held))]
fn device_held(mode: u32, bytes: &Part<'_>) -> Option<DeviceBytes>
    ensures { result ≡ device_held mode bytes.now }
{
    if !is_device(mode) {
        return None;
    }
    number_of(bytes)
}

/// The number that so many zeros are.
fn number_of_zeros(count: u32) -> Option<DeviceBytes>
    ensures { result ≡ number_held (replicate count 0) }
{
    match count {
        2 => Some(DeviceBytes::Two([0; 2])),
        4 => Some(DeviceBytes::Four([0; 4])),
        _ => None,
    }
}

/// The number that these bytes are.
fn number_of(bytes: &Part<'_>) -> Option<DeviceBytes>
    ensures { result ≡ number_held bytes.now }
{
    match bytes.len() {
        2 => {
            let mut two = [0; 2];
            bytes.copy_to(&mut two);
            Some(DeviceBytes::Two(two))
        }
        4 => {
            let mut four = [0; 4];
            bytes.copy_to(&mut four);
            Some(DeviceBytes::Four(four))
        }
        _ => None,
    }
}
