//! What kind of node an extent is.

ghost use Rattle.std.specs.Prelude.{◌≡◌, ◌≤◌};
ghost use Rattle.jscan.specs.Counts.{one_if};
ghost use Rattle.jinfo.specs.Census.{is_damaged_tile, is_dirent_tile, is_node_tile, is_object_tile, is_obsolete_tile, is_other_tile, is_packed_by, is_packed_otherwise, is_stored_tile, is_zero_tile};
ghost use Rattle.jinfo.specs.BlockSizes.{is_marker_tile};

use jnode::{Fill, Seen};
use jscan::ExtentKind;

/// Compressions of an inode node's data that have a name.
pub(crate) const RTIME: u8 = 2;

pub(crate) const ZLIB: u8 = 6;

pub(crate) const LZO: u8 = 7;

/// Of OpenWrt's kernels.
pub(crate) const LZMA: u8 = 8;

/// 1 where something is counted.
pub(crate) fn one_if(counts: bool) -> u64
    ensures value { result ≡ one_if counts }
    ensures small { result ≤ 1 }
{
    if counts { 1 } else { 0 }
}

pub(crate) fn is_node(kind: &ExtentKind<'_>) -> bool
    ensures { result ≡ is_node_tile kind.now }
{
    matches!(kind, ExtentKind::Tiled(_))
}

pub(crate) fn is_entry(kind: &ExtentKind<'_>) -> bool
    ensures { result ≡ is_dirent_tile kind.now }
{
    matches!(kind, ExtentKind::Tiled(Seen::Entry(_)))
}

/// Whether it is a sound inode node, however its data are compressed.
pub(crate) fn is_inode(kind: &ExtentKind<'_>) -> bool
    ensures { result ≡ is_object_tile kind.now }
{
    matches!(
        kind,
        ExtentKind::Tiled(Seen::Inode(_) | Seen::Compressed { .. })
    )
}

pub(crate) fn is_obsolete(kind: &ExtentKind<'_>) -> bool
    ensures { result ≡ is_obsolete_tile kind.now }
{
    matches!(kind, ExtentKind::Tiled(Seen::Obsolete))
}

pub(crate) fn is_damaged(kind: &ExtentKind<'_>) -> bool
    ensures { result ≡ is_damaged_tile kind.now }
{
    matches!(kind, ExtentKind::Tiled(Seen::Damaged { .. }))
}

/// Whether it is a node that carries no entry and no object.
pub(crate) fn is_other(kind: &ExtentKind<'_>) -> bool
    ensures { result ≡ is_other_tile kind.now }
{
    matches!(
        kind,
        ExtentKind::Tiled(
            Seen::Marker
                | Seen::Padding
                | Seen::Attribute
                | Seen::Skippable { .. }
                | Seen::ReadOnly { .. }
                | Seen::Incompatible { .. }
        )
    )
}

pub(crate) fn is_marker(kind: &ExtentKind<'_>) -> bool
    ensures { result ≡ is_marker_tile kind.now }
{
    matches!(kind, ExtentKind::Tiled(Seen::Marker))
}

/// Whether it is an inode node that holds its data as they are.
pub(crate) fn is_stored(kind: &ExtentKind<'_>) -> bool
    ensures { result ≡ is_stored_tile kind.now }
{
    match kind {
        ExtentKind::Tiled(Seen::Inode(inode)) => matches!(inode.fill, Fill::Data(_)),
        _ => false,
    }
}

/// Whether it is an inode node whose data are zeros.
pub(crate) fn is_zero(kind: &ExtentKind<'_>) -> bool
    ensures { result ≡ is_zero_tile kind.now }
{
    match kind {
        ExtentKind::Tiled(Seen::Inode(inode)) => matches!(inode.fill, Fill::Zero),
        _ => false,
    }
}

/// Whether it is an inode node whose data are compressed in this way.
pub(crate) fn is_packed_by(way: u8, kind: &ExtentKind<'_>) -> bool
    ensures { result ≡ is_packed_by way kind.now }
{
    match kind {
        ExtentKind::Tiled(Seen::Compressed { compr }) => *compr == way,
        _ => false,
    }
}

/// Whether it is an inode node whose data are compressed in a way that has no name here.
pub(crate) fn is_packed_otherwise(kind: &ExtentKind<'_>) -> bool
    ensures { result ≡ is_packed_otherwise kind.now }
{
    match kind {
        ExtentKind::Tiled(Seen::Compressed { compr }) => {
            *compr != RTIME && *compr != ZLIB && *compr != LZO && *compr != LZMA
        }
        _ => false,
    }
}
