//! The highest inode number and version of an image's nodes.

ghost use Rattle.std.specs.Prelude.{◌≡◌, ◌+◌, ◌<◌, ◌^◌, slice_index};
ghost use Rattle.jinfo.specs.Census.{ino_named, version_named, word_in_block};
ghost use Rattle.jinfo.specs.Counting.{higher_with};

use flashbase::Part;
use jnode::{Order, Seen};
use jscan::{Extent, ExtentKind};

/// The greatest inode number that a sound entry or inode node names, and the greatest version of
/// one; 0 where there is none.
#[derive(Clone, Copy, Debug, PartialEq, Eq)]
pub struct Highest {
    pub ino: u32,
    pub version: u32,
}

/// Where an inode node's number and version are, in bytes from its start (Linux,
/// include/uapi/linux/jffs2.h: `struct jffs2_raw_inode`).
const INO: usize = 12;

const VERSION: usize = 16;

/// The byte at a place of a block, 0 past its end.
fn byte_in(block: &Part<'_>, place: usize) -> u8
    ensures { result ≡ slice_index block.now place }
{
    block.get(place).unwrap_or(0)
}

/// The 32-bit number at a place of a block.
#[tactic(auto, unfolding(crate::specs::Census::word_in_block))]
fn word_in<E: Order>(block: &Part<'_>, place: usize) -> u32
    requires { place + 4 < 2 ^ 64 }
    ensures { result ≡ word_in_block E.order block.now place }
{
    E::read_u32(&[
        byte_in(block, place),
        byte_in(block, place + 1),
        byte_in(block, place + 2),
        byte_in(block, place + 3),
    ])
}

/// The greatest inode number that a node names.
fn ino_named<E: Order>(block: &Part<'_>, addr: u32, kind: &ExtentKind<'_>) -> u32
    ensures { result ≡ ino_named E.order block.now addr kind.now }
{
    match kind {
        ExtentKind::Tiled(Seen::Entry(entry)) => entry.pino.max(entry.ino),
        ExtentKind::Tiled(Seen::Inode(inode)) => inode.ino,
        ExtentKind::Tiled(Seen::Compressed { .. }) => word_in::<E>(block, addr as usize + INO),
        _ => 0,
    }
}

/// A node's version.
fn version_named<E: Order>(block: &Part<'_>, addr: u32, kind: &ExtentKind<'_>) -> u32
    ensures { result ≡ version_named E.order block.now addr kind.now }
{
    match kind {
        ExtentKind::Tiled(Seen::Entry(entry)) => entry.version,
        ExtentKind::Tiled(Seen::Inode(inode)) => inode.version,
        ExtentKind::Tiled(Seen::Compressed { .. }) => word_in::<E>(block, addr as usize + VERSION),
        _ => 0,
    }
}

impl Highest {
    /// The same with one extent more of this block.
    pub(crate) fn with<E: Order>(self, block: &Part<'_>, extent: &Extent<'_>) -> Highest
        ensures { result ≡ higher_with E.order block.now self extent.now }
    {
        Highest {
            ino: self
                .ino
                .max(ino_named::<E>(block, extent.addr, &extent.kind)),
            version: self
                .version
                .max(version_named::<E>(block, extent.addr, &extent.kind)),
        }
    }
}
