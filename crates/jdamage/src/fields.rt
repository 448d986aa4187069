//! What the fields of a damaged entry node say.

ghost use Rattle.std.specs.Prelude.{◌≡◌, ◌≤◌, length};
ghost use Rattle.jscan.specs.Image.{greatest_image};
ghost use Rattle.jdamage.specs.Fields.{loss_at};

use jgaps::field_at;
use jnode::Order;

/// Where the fields of an entry node are (Linux, include/uapi/linux/jffs2.h).
const PINO: usize = 12;

const VERSION: usize = 16;

const INO: usize = 20;

/// An entry whose name is lost.
#[derive(Clone, Copy)]
pub(crate) struct Loss {
    pub pino: u32,
    pub version: u32,
    pub ino: u32,
}

/// What a damaged entry node had.
pub(crate) fn loss_at<E: Order>(image: &[u8], addr: u32) -> Loss
    requires { length image.now ≤ greatest_image }
    ensures { result ≡ loss_at E.order image.now addr }
{
    Loss {
        pino: field_at::<E>(image, addr, PINO),
        version: field_at::<E>(image, addr, VERSION),
        ino: field_at::<E>(image, addr, INO),
    }
}
