//! What an image tells of itself.

ghost use Rattle.std.specs.Prelude.{◌≡◌, ◌≤◌, length};
ghost use Rattle.jscan.specs.Image.{greatest_image};
ghost use Rattle.jinfo.specs.Infos.{info_by, info_of, order_by};

use crate::census::{Census, census_of};
use byteorder::{BigEndian, LittleEndian};
use jnode::Endian;

/// What an image tells of itself where nobody says its byte order or its block size.
#[derive(Clone, Copy, Debug, PartialEq, Eq)]
pub struct Info {
    /// Its length in bytes.
    pub bytes: u64,
    /// Its byte order; none where no header is good.
    pub order: Option<Endian>,
    /// Its nodes in that order.
    pub census: Census,
    /// How many nodes it has in the other order.
    pub other: u64,
}

/// The order in which there are more nodes.
fn order_by(little: &Census, big: &Census) -> Option<Endian>
    ensures { result ≡ order_by little.now big.now }
{
    if little.nodes.all < big.nodes.all {
        Some(Endian::Big)
    } else if little.nodes.all == 0 {
        None
    } else {
        Some(Endian::Little)
    }
}

fn info_by(bytes: u64, little: Census, big: Census) -> Info
    ensures { result ≡ info_by bytes little big }
{
    let order = order_by(&little, &big);
    let (census, other) = if little.nodes.all < big.nodes.all {
        (big, little.nodes.all)
    } else {
        (little, big.nodes.all)
    };
    Info {
        bytes,
        order,
        census,
        other,
    }
}

/// What an image tells of itself. It takes no memory, and time linear in the bytes.
#[tactic(auto, unfolding(crate::specs::Infos::info_of))]
pub fn info_of(image: &[u8]) -> Info
    requires { length image.now ≤ greatest_image }
    ensures { result ≡ info_of image.now }
{
    info_by(
        image.len() as u64,
        census_of::<LittleEndian>(image),
        census_of::<BigEndian>(image),
    )
}
