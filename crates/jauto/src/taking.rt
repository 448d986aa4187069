//! What is taken of what an image tells of itself.
ghost use Rattle.std.specs.Prelude.{◌≡◌};
ghost use Rattle.jauto.specs.Taking.{is_one_size, taking_of};

use jcommand::Options;
use jhint::size_to_read;
use jinfo::{Info, SizeRange};
use jnode::Endian;
use jscan::Geometry;

/// What is taken of an image.
#[derive(Clone, Copy)]
pub enum Taking {
    /// Nothing: no node is found in it.
    Nothing,
    /// Nothing, since an image is to be written, and blocks of several sizes fit.
    Unclear {
        order: Endian,
        sizes: Option<SizeRange>,
    },
    /// Its byte order and the size of its blocks.
    Taken(Options),
}

/// Whether one size alone fits.
fn is_one_size(sizes: Option<SizeRange>) -> bool
    ensures { result ≡ is_one_size sizes }
{
    match sizes {
        Some(range) => range.least == range.greatest,
        None => false,
    }
}

/// What is taken of an image that tells this, for a command that writes one or does not.
pub fn taking_of(info: &Info, writes: bool) -> Taking
    ensures { result ≡ taking_of writes info.now }
{
    let Some(order) = info.order else {
        return Taking::Nothing;
    };
    let sizes = info.census.sizes;
    if writes && !is_one_size(sizes) {
        return Taking::Unclear { order, sizes };
    }
    Taking::Taken(Options {
        geometry: Geometry {
            block: size_to_read(sizes),
        },
        endian: order,
    })
}
